//! An instruction enters a flow: it is let, and runs as far as it comes.
ghost use Rattle.std.specs.Prelude.{◌⊎◌, ◌≡◌, ◌<◌, suc, length, IfSome, IsFalse, IsTrue, Some};
ghost use Rattle.instructions.specs.declared.op.Half.TheVariants.{Low};
ghost use Rattle.one_thread.specs.Decoding.{HasInstr, IsDecoded};
ghost use Rattle.streaming.specs.Known.{IsKnownThere, IsWhole};
ghost use Rattle.streaming.specs.Flow.{CanEnter, Flows, HasEntered, HasPlace, Reopens, Upcoming, enters_as, in_order};
ghost use Rattle.one_thread.specs.Producers.{Chosen};

use crate::astray::mend;
use crate::completing::completes;
use crate::flow::Flow;
use crate::known::{guess_behind, is_plain, known};
use instructions::{Half, Kind, Leaver, Predictor};
use one_thread::{Decoded, Pipeline, Station, fetch_at, fetch_known, take_leaver};

// The number of instructions that stay completed after one more: all if it was mispredicted, else `from`.
#[inline(always)]
fn closed(flow: &Flow, predicted: u32, next: u32, from: usize) -> usize
    ensures { (next ≡ predicted) × (result ≡ from) ⊎ (result ≡ length flow.now.ring.completed) }
{
    if next == predicted {
        from
    } else {
        flow.ring.len()
    }
}

// The next instruction is left as it was let.
#[cold]
#[inline(never)]
fn stays(flow: &mut Flow, instr: &Decoded, predicted: u32)
    ensures { flow.new ≡ record flow.old {
      last = Some (enters_as flow.old instr.now predicted);
    } }
{
    let station = Station::let_at(instr, flow.half, flow.future.pc, predicted);
    flow.last = Some(station);
}

// The next instruction is let alone, and fills the ring: nothing is let after it.
#[inline(always)]
fn is_alone(unit: &Pipeline<'_>, flow: &Flow, from: usize) -> bool {
    flow.ring.len() == from && from + 1 == unit.ring
}

/// Whether the next instruction can enter, if there is one; else nothing can be done before the oldest leaves.
#[inline(always)]
pub fn upcoming(unit: &Pipeline<'_>, flow: &Flow) -> Option<bool>
    requires flow { Flows unit.now flow.now }
    requires room { length flow.now.ring.completed < unit.now.ring }
    requires code { IsDecoded unit.now.code.items unit.now.program.now }
    ensures { Upcoming unit.now flow.now result }
{
    let instr = fetch_at(unit.code.as_slice(), flow.future.pc)?;
    if instr.is_access() && unit.queue <= flow.accesses {
        return Some(false);
    }
    Some(true)
}

// Fetches and executes the next instruction, and gives how many stay completed. `None`: it could not complete and is
// only fetched. All but the oldest `from` were fetched in a row with it: a miss is mended unless a load is among
// these, whose value may be there only once a younger instruction was claimed. What it does may be known.
#[inline(always)]
fn run_next<P: Predictor>(
    unit: &mut Pipeline<'_>,
    predictor: &mut P,
    flow: &mut Flow,
    left: Option<Leaver>,
    station: usize,
    from: usize,
    half: Half,
    known: Option<Kind>,
) -> Option<usize>
    requires place { HasPlace unit.old flow.old from station }
    requires kind { IsKnownThere unit.old.code.items flow.old.future.pc known }
    requires half { half ≡ flow.old.half }
    requires first { IfSome known (λ k. half ≡ Low) }
    ensures entered { HasEntered unit.new flow.old flow.new from result }
    ensures order { in_order unit.new flow.new ≡ in_order unit.new flow.old }
    ensures rest { unit.new ≡ record unit.old { leavers = unit.new.leavers } }
{
    let pc = flow.future.pc;
    let instr = fetch_known(unit.code.as_slice(), pc);
    let predicted = guess_behind(predictor, left, instr, known, half, pc);
    let operands = flow.future.operands(instr);
    let Some(done) = completes(unit, flow, instr, known, half, predicted, &operands) else {
        stays(flow, instr, predicted);
        return None;
    };
    if done.next != predicted && !is_alone(unit, flow, from) {
        if flow.ring.has_load_behind(from) {
            stays(flow, instr, predicted);
            return None;
        }
        mend(unit, predictor, flow, predicted, done, operands.b);
        return Some(flow.ring.len());
    }
    let completed = flow.completed(instr, known, half, predicted, done, operands.b);
    flow.joins(station, instr, known, completed, operands.b);
    Some(closed(flow, predicted, done.next, from))
}

// A half of a pair enters. It is another function for each caller, as `enter_after` is.
fn run_half<P: Predictor, const FULL: bool>(
    unit: &mut Pipeline<'_>,
    predictor: &mut P,
    flow: &mut Flow,
    left: Option<Leaver>,
    station: usize,
    from: usize,
) -> Option<usize>
    requires { HasPlace unit.old flow.old from station }
    ensures entered { HasEntered unit.new flow.old flow.new from result }
    ensures order { in_order unit.new flow.new ≡ in_order unit.new flow.old }
    ensures rest { unit.new ≡ record unit.old { leavers = unit.new.leavers } }
{
    let half = flow.half;
    run_next(unit, predictor, flow, left, station, from, half, None)
}

// Whether the next instruction is half of a pair.
#[inline(always)]
fn is_half(unit: &Pipeline<'_>, flow: &Flow) -> bool
    requires { HasInstr unit.now.code.items flow.now.future.pc }
    ensures { IsFalse result → IsWhole unit.now.code.items flow.now.future.pc }
{
    fetch_known(unit.code.as_slice(), flow.future.pc).is_pair()
}

// What the next instruction does, if nothing else is to be looked at.
#[inline(always)]
fn known_next(unit: &Pipeline<'_>, flow: &Flow) -> Option<Kind>
    requires { HasInstr unit.now.code.items flow.now.future.pc }
    ensures { IsKnownThere unit.now.code.items flow.now.future.pc result }
{
    known(fetch_known(unit.code.as_slice(), flow.future.pc))
}

/// Whether the next instruction can enter.
#[inline(always)]
pub fn can_enter(unit: &Pipeline<'_>, flow: &Flow) -> bool
    requires room { length flow.now.ring.completed < unit.now.ring }
    requires code { IsDecoded unit.now.code.items unit.now.program.now }
    ensures { IsTrue result → CanEnter unit.now flow.now }
{
    let Some(instr) = fetch_at(unit.code.as_slice(), flow.future.pc) else {
        return false;
    };
    if is_plain(instr) {
        return true;
    }
    if instr.is_access() && unit.queue <= flow.accesses {
        return false;
    }
    true
}

/// Lets the next instruction, and runs it as far as it comes, where the predictor is to be told of who has left its
/// station, which is this one, and all but the oldest `from` were let in a row with it. Answers how many have
/// completed for good, or None where it is left as it was let. What computes a value, loads, stores and jumps each take
/// a way of their own, compiled apart. With `FULL` the ring is full then: it is another function for each of its two
/// callers, since LLVM puts one of this size into its caller only where that is the only one.
#[inline(always)]
pub fn enter_after<P: Predictor, const FULL: bool>(
    unit: &mut Pipeline<'_>,
    predictor: &mut P,
    flow: &mut Flow,
    left: Option<Leaver>,
    station: usize,
    from: usize,
) -> Option<usize>
    requires { HasPlace unit.old flow.old from station }
    ensures entered { HasEntered unit.new flow.old flow.new from result }
    ensures order { in_order unit.new flow.new ≡ in_order unit.new flow.old }
    ensures rest { unit.new ≡ record unit.old { leavers = unit.new.leavers } }
{
    let low = Half::Low;
    match known_next(unit, flow) {
        Some(Kind::Computes) => {
            let known = Some(Kind::Computes);
            run_next(unit, predictor, flow, left, station, from, low, known)
        },
        Some(Kind::Loads) => {
            let known = Some(Kind::Loads);
            run_next(unit, predictor, flow, left, station, from, low, known)
        },
        Some(Kind::Stores) => {
            let known = Some(Kind::Stores);
            run_next(unit, predictor, flow, left, station, from, low, known)
        },
        Some(Kind::Jumps) => {
            let known = Some(Kind::Jumps);
            run_next(unit, predictor, flow, left, station, from, low, known)
        },
        _ if is_half(unit, flow) => {
            run_half::<P, FULL>(unit, predictor, flow, left, station, from)
        },
        _ => run_next(unit, predictor, flow, left, station, from, low, None),
    }
}

/// Lets the next instruction, and runs it as far as it comes, where all but the oldest `from` were let in a row with
/// it. Answers how many have completed for good, or None where it is left as it was let.
#[inline(always)]
pub fn enter_flow<P: Predictor>(
    unit: &mut Pipeline<'_>,
    predictor: &mut P,
    flow: &mut Flow,
    from: usize,
) -> Option<usize>
    requires flow { Flows unit.old flow.old }
    requires reopens { Reopens (in_order unit.old flow.old) flow.old from }
    requires can { CanEnter unit.old flow.old }
    ensures entered { HasEntered unit.new flow.old flow.new from result }
    ensures order { in_order unit.new flow.new ≡ in_order unit.new flow.old }
    ensures rest { unit.new ≡ record unit.old { leavers = unit.new.leavers } }
{
    let station = flow.ring.station_at(flow.ring.len());
    let left = take_leaver(&mut unit.leavers, station);
    enter_after::<P, false>(unit, predictor, flow, left, station, from)
}
