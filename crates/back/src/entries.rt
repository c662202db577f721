//! The load/store queue's entry of an instruction, by what its station shows.
ghost use Rattle.std.specs.Prelude.{◌≡◌};
ghost use Rattle.back.specs.Port.{address_in, content_in, seen_as};

use inorder::access_entry;
use instructions::Instr;
use lsq::Entry;
use station::{SourceState, StationState};

// The address that a station shows.
pub(crate) fn address(state: StationState, value: u32) -> Option<u32>
    ensures { result ≡ address_in state value }
{
    match state {
        StationState::Addr => Some(value),
        _ => None,
    }
}

// The queue's entry of an instruction, by the state and value that its station shows.
pub(crate) fn entry(instr: &Instr, state: StationState, value: u32) -> Entry
    ensures { result ≡ seen_as instr.now state value }
{
    access_entry(instr.op(), address(state, value), None)
}

// The data that an operand shows.
pub(crate) fn content(state: SourceState, value: u32) -> Option<u32>
    ensures { result ≡ content_in state value }
{
    match state {
        SourceState::Val => Some(value),
        _ => None,
    }
}
