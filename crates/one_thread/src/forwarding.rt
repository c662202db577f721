//! Store-to-load forwarding: what the queue holds before a load.
ghost use Rattle.std.specs.Prelude.{◌≡◌, ◌≤◌, length, slice_get};
ghost use Rattle.instructions.specs.Instruction.{width};
ghost use Rattle.lsq.specs.LoadRule.{answer_over as answer_by};
ghost use Rattle.one_thread.specs.Loads.{address_of as address_by, entries, entry_at as entry_in};

use crate::source::source;
use crate::station::Stage;
use crate::window::Window;
use crate::with_pending_low::WithPendingLow;
use arrayvec::ArrayVec;
use inorder::{access_entry, access_width};
use instructions::{Kind, Op};
use lsq::{Answer, Entry, answer_over};

// The address of a load or store, if it was computed.
fn address_of(stage: Stage) -> Option<u32>
    ensures { result ≡ address_by stage }
{
    match stage {
        Stage::Addr(a) => Some(a),
        _ => None,
    }
}

// What the queue holds of the tenant at `i`, if that reaches memory.
fn entry_at(window: &Window, ahead: &WithPendingLow, i: usize) -> Option<Entry>
    requires { i ≤ length window.now }
    ensures { result ≡ entry_in ahead.now.registers window.now (slice_get window.now i) i }
{
    let station = window.peek(i)?;
    let instr = &station.instr;
    let content = match instr.kind() {
        Kind::Stores => source(window, ahead, i, instr.second()),
        Kind::Loads => None,
        _ => return None,
    };
    Some(access_entry(instr.op(), address_of(station.stage), content))
}

/// The rule's answer to the tenant at `i`, a load of this address, by what the queue holds of the first `i` tenants.
#[inline(never)]
pub fn answer_at(window: &Window, ahead: &WithPendingLow, i: usize, op: Op, address: u32) -> Answer
    requires { i ≤ length window.now }
    ensures { result ≡ answer_by (entries ahead.now.registers window.now i) address (width op) }
{
    prove!(i <= window.len());
    let mut older = ArrayVec::<Entry, 32>::new();
    for at in 0..i {
        if let Some(entry) = entry_at(window, ahead, at) {
            older.push(entry);
        }
    }
    answer_over(older.as_slice(), address, access_width(op))
}
