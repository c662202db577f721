//! The run of a whole program by the choices of a chooser.
ghost use Rattle.std.specs.Prelude.{◌≡◌, IfOk};
ghost use Rattle.inorder.specs.Runs.{end_of, end_state};
ghost use Rattle.bench.specs.Runs.{HasRunFromStart};

use instructions::{Config, End, Memory, Predictor, Program};
use one_thread::{Bench, Chooser};
use std::alloc::Global;

/// Runs a program on the one-thread unit up to the limit of the configuration, each turn as the chooser names it.
pub fn run_by<P: Predictor + Drop, C: Chooser>(
    alloc: Global,
    program: &Program,
    config: &Config,
    predictor: P,
    chooser: &mut C,
) -> Result<End, Memory>
    ensures end { IfOk result (λ end. end_state end ≡ end_of program.now config.now.limit) }
    ensures chooser { IfOk result (λ end. HasRunFromStart P.Predicts P.Learns C.Chooses
        program.now config.now predictor chooser.old chooser.new (end_state end)) }
{
    let bench = Bench::new(alloc, program, config, predictor)?;
    Ok(bench.run_by(u64::from(config.limit()), chooser))
}
