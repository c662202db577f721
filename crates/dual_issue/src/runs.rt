//! Whole runs.
ghost use Rattle.std.specs.Prelude.{◌≡◌, IfOk};
ghost use Rattle.inorder.specs.Runs.{end_of, end_state};

use crate::policy::DualIssue;
use instructions::{Config, End, Memory, Predictor, Program};
use one_thread::Bench;
use std::alloc::Global;

/// Runs a program on the one-thread unit by the policy, up to the limit of the configuration: as the in-order machine does.
pub fn run<P: Predictor + Drop>(
    alloc: Global,
    program: &Program,
    config: &Config,
    predictor: P,
) -> Result<End, Memory>
    ensures { IfOk result (λ end. end_state end ≡ end_of program.now config.now.limit) }
{
    let bench = Bench::new(alloc, program, config, predictor)?;
    Ok(bench.run_by(u64::from(config.limit()), &mut DualIssue::new()))
}
