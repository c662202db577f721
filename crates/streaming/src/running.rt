//! The run of a whole program.
ghost use Rattle.std.specs.Prelude.{◌≡◌, ◌<◌, ◌-◌, ◌^◌, IfOk};
ghost use Rattle.inorder.specs.Runs.{end_of, end_state};
ghost use Rattle.one_thread.specs.Changes.{run_from};
ghost use Rattle.one_thread.specs.StandsFor.{StandsForSome};
ghost use Rattle.streaming.specs.Runs.{RetiresOne};

use crate::streaming::stream;
use instructions::{Config, End, Ending, Memory, Predictor, Program, Stop};
use one_thread::{Pipeline, Turn};
use std::alloc::Global;

// Turns until an instruction retires, and else tells why the unit ended.
#[inline(always)]
fn retire_one<P: Predictor>(unit: &mut Pipeline<'_>, predictor: &mut P) -> Option<Stop>
    requires unit { StandsForSome unit.old }
    requires count { unit.old.committed.count < 2 ^ 64 - 1 }
    ensures unit { StandsForSome unit.new }
    ensures program { unit.new.program ≡ unit.old.program }
    ensures ends { RetiresOne result unit.old unit.new }
{
    let before = unit.committed.count();
    while unit.committed.count() == before {
        if let Turn::Over(code) = unit.turn(predictor) {
            return Some(code);
        }
    }
    None
}

// Turns until the unit stops, or its count has reached a limit.
fn run_to<P: Predictor>(unit: &mut Pipeline<'_>, predictor: &mut P, limit: u64) -> Ending
    requires { StandsForSome unit.old }
    ensures { (result, unit.new.committed) ≡ run_from unit.old limit }
{
    let mut again = 0;
    loop {
        let before = unit.committed.count();
        if again <= before {
            again = stream(unit, predictor, limit);
        }
        if limit <= unit.committed.count() {
            return Ending::Limit;
        }
        if let Some(code) = retire_one(unit, predictor) {
            return Ending::Stop(code);
        }
    }
}

/// Runs a program on the one-thread unit up to the limit of the configuration, each turn the first that is possible.
pub fn run<P: Predictor + Drop>(
    alloc: Global,
    program: &Program,
    config: &Config,
    predictor: P,
) -> Result<End, Memory>
    ensures { IfOk result (λ end. end_state end ≡ end_of program.now config.now.limit) }
{
    let mut predictor = predictor;
    let mut unit = Pipeline::new(alloc, program, config)?;
    let outcome = run_to(&mut unit, &mut predictor, u64::from(config.limit()));
    let committed = unit.committed;
    Ok(committed.into_end(outcome))
}
