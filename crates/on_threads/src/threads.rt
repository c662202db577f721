//! A run on several threads.
ghost use Rattle.std.specs.Prelude.{◌≡◌, IfOk, IfErr, Some, false, string_bytes};
ghost use Rattle.command_line.specs.Predictors.{IsChosen};
ghost use Rattle.on_threads.specs.Answers.{IsTold};
ghost use Rattle.on_threads.specs.Runs.{IsOfRun};
ghost use Rattle.on_threads.specs.Threads.{ended_of, run_refusal};

use crate::went::written;
use answers::Status;
use command_line::{Asked, Chosen, Exit, Line, Refusal};
use instructions::{End, Program};
use isa::report_text;
use pool::{Gate, Run, Tally, run};
use std::alloc::Global;
use std::sync::Wait;
use std::thread::Threads;

/// Runs the program of a listing on threads with the predictor that is asked for: how it went, and its report; or the line
/// of the listing's fault.
pub(crate) fn tell<T: Threads + Wait + Sync, G: Gate + Sync>(
    wait: &T,
    alloc: Global,
    asked: &Asked<'_>,
    listing: Result<Program, String>,
    predictor: Chosen,
    gate: &G,
) -> Result<(Exit, String), Refusal>
    requires threads { asked.now.alone ≡ false }
    requires predictor { IsChosen asked.now.predictor predictor }
    ensures ok { IfOk result (λ told. IsTold asked.now listing (string_bytes told.1) told.0) }
    ensures err { IfErr result IsOfRun }
{
    let program = match listing {
        Ok(program) => program,
        Err(line) => return Ok((written(Status::TextFault, Line::Nothing), line)),
    };
    let run = run(wait, alloc, &program, &asked.config, predictor, gate);
    let (end, tally) = ended_run(run)?;
    let text = report_text(alloc, &end)?;
    let status = Status::of(end.outcome);
    Ok((written(status, Line::Tally(tally)), text))
}

// The end of a run and what its threads did, if it had all that it wanted.
fn ended_run(run: Run) -> Result<(End, Tally), Refusal>
    ensures ok { IfOk result (λ ended. ended_of run ≡ Some ended) }
    ensures err { IfErr result IsOfRun }
{
    match run {
        Run::Ended(end, tally) | Run::LimitReached(end, tally) => Ok((end, tally)),
        Run::Refused(refusal) => Err(run_refusal(refusal)),
    }
}

fn run_refusal(refusal: pool::Refusal) -> Refusal
    ensures { result ≡ run_refusal refusal }
{
    match refusal {
        pool::Refusal::Memory => Refusal::Memory,
        pool::Refusal::Thread => Refusal::Thread,
    }
}
