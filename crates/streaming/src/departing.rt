//! The oldest instruction of a flow retires.
ghost use Rattle.std.specs.Prelude.{◌≡◌, ◌<◌, ◌≤◌, ◌-◌, ◌^◌, ℕ, length};
ghost use Rattle.streaming.specs.Departing.{OldestRetired, run_in, to_do};
ghost use Rattle.streaming.specs.Flow.{Flows, window_of};
ghost use Rattle.streaming.specs.Kept.{OldestIsCounted};

use crate::flow::Flow;
use crate::retiring::{retire, retire_counted};
use instructions::Leaver;
use one_thread::{Leaves, Pipeline, fetch_known, leave_untold};

// Retires the oldest instruction, whatever there is to do.
#[inline(always)]
fn depart_any(unit: &mut Pipeline<'_>, flow: &mut Flow) -> Option<Leaver>
    requires flow { Flows unit.old flow.old }
    requires some { 2 ≤ length (window_of unit.old flow.old) }
    requires count { unit.old.committed.count < 2 ^ 64 - 1 }
    ensures departed { OldestRetired unit.old flow.old result unit.new flow.new }
    ensures more { unit.old.committed.count ≤ unit.new.committed.count }
{
    let oldest = *flow.ring.oldest();
    let instr = fetch_known(unit.code.as_slice(), oldest.pc);
    retire(&mut unit.committed, &mut unit.low, flow, instr, &oldest)
}

// Retires the oldest instruction, which is no half: it leaves with its number of accesses and goes on at `next`. Answers
// what a predictor is to be told.
#[inline(always)]
fn depart_counted(
    unit: &mut Pipeline<'_>,
    flow: &mut Flow,
    accesses: usize,
    next: u32,
    told: Option<Leaver>,
) -> Option<Leaver>
    requires flow { Flows unit.old flow.old }
    requires some { 2 ≤ length (window_of unit.old flow.old) }
    requires count { unit.old.committed.count < 2 ^ 64 - 1 }
    requires oldest { OldestIsCounted flow.old.ring.completed accesses next told }
    ensures departed { OldestRetired unit.old flow.old result unit.new flow.new }
    ensures more { unit.old.committed.count ≤ unit.new.committed.count }
{
    retire_counted(&mut unit.committed, flow, accesses, next);
    told
}

/// Retires the oldest instruction of a flow where nothing can enter before. Answers what a predictor is to be told
/// of who has left its station. Where there is nothing to do but to count it, nothing else is looked at.
#[inline(always)]
pub fn depart(unit: &mut Pipeline<'_>, flow: &mut Flow) -> Option<Leaver>
    requires flow { Flows unit.old flow.old }
    requires some { 2 ≤ length (window_of unit.old flow.old) }
    requires count { unit.old.committed.count < 2 ^ 64 - 1 }
    ensures departed { OldestRetired unit.old flow.old result unit.new flow.new }
    ensures more { unit.old.committed.count ≤ unit.new.committed.count }
{
    let oldest = flow.ring.oldest();
    let (leaves, pc, next) = (oldest.leaves, oldest.pc, oldest.next);
    match leaves {
        Leaves::Told => depart_counted(unit, flow, 0, next, Some(Leaver { pc, next })),
        Leaves::Any => depart_any(unit, flow),
        _ => depart_counted(unit, flow, leaves.accesses(), next, None),
    }
}

/// Retires the oldest instruction of a flow where nothing can enter before.
#[inline(always)]
pub fn leave_flow(unit: &mut Pipeline<'_>, flow: &mut Flow)
    requires flow { Flows unit.old flow.old }
    requires some { 2 ≤ length (window_of unit.old flow.old) }
    requires count { unit.old.committed.count < 2 ^ 64 - 1 }
    ensures flow { Flows unit.new flow.new }
    ensures room { length flow.new.ring.completed < unit.new.ring }
    ensures code { unit.new.code ≡ unit.old.code }
    ensures program { unit.new.program ≡ unit.old.program }
    ensures more { unit.old.committed.count ≤ unit.new.committed.count }
    ensures ends { (limit : ℕ) → unit.old.committed.count < limit →
        run_in unit.new flow.new limit ≡ run_in unit.old flow.old limit }
    ensures less { (limit : ℕ) → unit.old.committed.count < limit →
        to_do limit unit.new < to_do limit unit.old }
{
    let station = flow.ring.station();
    let told = depart(unit, flow);
    leave_untold(&mut unit.leavers, station, told);
}
