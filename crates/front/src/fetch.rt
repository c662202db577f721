//! Fetch: the instruction that is let next, or the reason why none is.
ghost use Rattle.std.specs.Prelude.{◌≡◌, ◌≤◌, ◌<◌, [], IfOk, IfErr};
ghost use Rattle.inorder.specs.History.{IsLegal, front, unit_of};
ghost use Rattle.inorder.specs.OneHistory.{Adds};
ghost use Rattle.front.specs.Fetching.{CanFetch};
ghost use Rattle.front.specs.Fronts.{AddsNothing, KnowsPath};
ghost use Rattle.front.specs.Turns.{Refuses};
ghost use Rattle.station.specs.Seats.{IsSameSeat};

use crate::answers::Turn;
use crate::needs::queue_is_full;
use crate::path::Path;
use instructions::{Half, Instr, Program};
use station::{Core, FrontSeat, StationState};

// The tag that no tenant gets.
const LAST_TAG: u32 = 0x0fff_ffff;

/// The next instruction and its half, where it goes, and what the last tenant of its station left.
#[derive(Clone, Copy)]
pub struct Fetched {
    pub instr: Instr,
    pub half: Half,
    pub pc: u32,
    pub station: usize,
    pub last_value: u32,
}

/// The instruction that can be let next, or why none can.
pub fn fetch(
    core: &Core,
    seat: &mut FrontSeat,
    path: &Path,
    program: &Program,
) -> Result<Fetched, Turn>
    requires core { seat.old.core ≡ core.now }
    requires by { seat.old.by ≡ front }
    requires legal { IsLegal core.now.program core.now.sizes seat.old.seen }
    requires program { program.now ≡ core.now.program }
    requires knows { KnowsPath core.now seat.old.seen path.now }
    ensures kept { IsSameSeat seat.old seat.new }
    ensures history { AddsNothing core.now seat.old.seen seat.new.seen }
    ensures ok { IfOk result (CanFetch core.now.program core.now.sizes
        seat.new.seen path.now.records) }
    ensures err { IfErr result (Refuses core.now.program core.now.sizes
        seat.old.seen seat.new.seen) }
{
    let station = path.next_station(core.ring());
    let ahead = core.look(seat, station);
    let StationState::Free = ahead.state else {
        return Err(Turn::Full);
    };
    let pc = path.front_pc();
    let half = path.front_half();
    let Some(instr) = program.fetch(pc) else {
        return Err(Turn::NoInstr);
    };
    if queue_is_full(core, seat, path, &instr) {
        return Err(Turn::QueueFull);
    }
    if ahead.tag == LAST_TAG {
        return Err(Turn::Spent);
    }
    Ok(Fetched {
        instr,
        half,
        pc,
        station,
        last_value: ahead.value,
    })
}
