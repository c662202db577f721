//! Verdicts.
ghost use Rattle.std.specs.Prelude.{◌≡◌, ◌<◌, ◌≤◌, ◌^◌, IfOk, Some, length, slice_get};
ghost use Rattle.replay.specs.Lets.{IsFit};
ghost use Rattle.replay.specs.Placing.{IsFreeVerdict};
ghost use Rattle.replay.specs.Verdicts.{IsVerdict};

use crate::step::{Reason, Step};
use crate::unit::Unit;
use inorder::one_thread_unit_is_right;
use instructions::Program;
use std::alloc::{AllocError, Global};

/// All steps are legal, or the step with this number is the first that is not, for a reason.
#[derive(Clone, Copy)]
pub enum Verdict {
    Legal,
    Refused(usize, Reason),
}

fn step_at(steps: &[Step], n: usize) -> Step
    requires { n < length steps.now }
    ensures { slice_get steps.now n ≡ Some result }
{
    steps[n]
}

/// Judges steps that somebody else names, of a unit with `ring` stations and at most `queue` loads and stores in flight.
pub fn judge(
    alloc: Global,
    program: &Program,
    ring: usize,
    queue: usize,
    steps: &[Step],
) -> Result<Verdict, AllocError>
    requires ring { 0 < ring }
    requires steps { length steps.now < 2 ^ 62 }
    ensures { IfOk result
        (IsVerdict program.now (record { ring = ring; queue = queue; first_tag = 1 }) steps.now) }
{
    one_thread_unit_is_right();
    let mut unit = Unit::new(alloc, program, ring, queue)?;
    for n in 0..steps.len() {
        match unit.take(step_at(steps, n))? {
            Ok(()) => {}
            Err(reason) => return Ok(Verdict::Refused(n, reason)),
        }
    }
    Ok(Verdict::Legal)
}

/// Judges steps among which no link and no delivery is named: each is made as soon as it is due, which allows the most.
pub fn judge_unplaced(
    alloc: Global,
    program: &Program,
    ring: usize,
    queue: usize,
    steps: &[Step],
) -> Result<Verdict, AllocError>
    requires ring { 0 < ring }
    requires steps { length steps.now < 2 ^ 62 }
    ensures { IfOk result (IsFreeVerdict program.now
        (record { ring = ring; queue = queue; first_tag = 1 }) steps.now) }
{
    one_thread_unit_is_right();
    let mut unit = Unit::new(alloc, program, ring, queue)?;
    for n in 0..steps.len() {
        match unit.take(step_at(steps, n))? {
            Ok(()) => unit.supply_all(),
            Err(reason) => return Ok(Verdict::Refused(n, reason)),
        }
    }
    Ok(Verdict::Legal)
}
