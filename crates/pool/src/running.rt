//! Runs a program in threads, and joins them.
ghost use Rattle.std.specs.Prelude.{◌≡◌, [], IfOk};
ghost use Rattle.committing.specs.RunEnds.{HasRun, RunIsRight, IsWithinLimit, TakesTurns};
ghost use Rattle.counts.specs.Shares.{all_parts};
ghost use Rattle.pool.specs.Terms.{MayBegin};

use crate::making::{RunShared, make, make_state};
use crate::terms::{Term, run_terms};
use back::OfProgram;
use committing::{Committer, Refusal, Run, start_snappers};
use counts::{CountSeat, Counts};
use hints::Ring;
use instructions::{Config, Memory, Predictor, Program};
use std::alloc::Global;
use std::marker::Brand;
use std::sync::Wait;
use std::thread;
use std::thread::Threads;
use workers::{Bounds, Gate, RunState};

// Makes the sides of a run, runs its terms in threads, and answers how it ended when each thread has.
fn run_in_threads<
    'x,
    K: OfProgram + Bounds + Ring + Send + Sync,
    P: Predictor + Drop + Send,
    G: Gate + Sync,
    R: Threads + Wait + Sync,
>(
    run: &'x RunShared<'x, G, R>,
    state: &'x RunState<K>,
    count: CountSeat,
    predictor: P,
) -> Result<Run, Memory>
    requires count { count ≡ record { of = K.counts; shares = all_parts; seen = [] } }
    requires program { run.now.program.now ≡ K.program }
    requires config { run.now.config.now ≡ K.config }
    ensures { IfOk result (HasRun K.program K.config) }
{
    let (mut committer, term, snapper) = make::<K, P, G, R>(run, state, count, predictor)?;
    let committing = &mut committer;
    thread::scope(
        thread::scope_env(),
        run.wait,
        move |scope|
            requires config { run.now.config.now ≡ K.config }
            requires begins { MayBegin state.now.counts K.config committing.now term }
        {
            let (wait, gate) = (run.wait, run.gate);
            let places = run.config.places();
            if start_snappers(scope, wait, state, gate, places, snapper) {
                run_terms(run, state, term, committing);
            } else {
                drop(term);
            }
            state.end_run();
        },
    );
    Ok(committer.end(run.wait, state))
}

// Makes the state of a run, and carries it out. A large value is dropped by a call, which is one step of the proof.
fn run_named<
    K: OfProgram + Bounds + Ring + Send + Sync,
    P: Predictor + Drop + Send,
    G: Gate + Sync,
    R: Threads + Wait + Sync,
>(run: &RunShared<'_, G, R>, counts: Counts, count: CountSeat, predictor: P) -> Result<Run, Memory>
    requires counts { counts ≡ K.counts }
    requires count { count ≡ record { of = counts; shares = all_parts; seen = [] } }
    requires program { run.now.program.now ≡ K.program }
    requires config { run.now.config.now ≡ K.config }
    requires ring { run.now.config.now.ring ≡ K.ring }
    ensures { IfOk result (HasRun K.program K.config) }
{
    let state = make_state::<K>(run.alloc, run.config, counts)?;
    let ran = run_in_threads::<K, P, G, R>(&*run, &state, count, predictor);
    drop(state);
    ran
}

/// Runs a program on as many unit threads as the configuration says, beside one that dispatches, one
/// that commits (the caller's own) and those that take snapshots. All have ended when the call returns.
pub fn run<'x, P: Predictor + Drop + Send, G: Gate + Sync, R: Threads + Wait + Sync>(
    wait: &'x R,
    alloc: Global,
    program: &'x Program,
    config: &Config,
    predictor: P,
    gate: &'x G,
) -> Run
    ensures right { RunIsRight program.now result }
    ensures within { IsWithinLimit config.now.limit result }
    ensures turns { TakesTurns config.now.turns result }
{
    let Ok((counts, count)) = Counts::make(alloc) else {
        return Run::Refused(Refusal::Memory);
    };
    let run = RunShared {
        wait,
        alloc,
        program,
        config,
        gate,
    };
    match run_named::<Brand, P, G, R>(&run, counts, count, predictor) {
        Ok(run) => run,
        Err(_) => Run::Refused(Refusal::Memory),
    }
}
