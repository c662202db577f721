//! The terms of a run: in each, threads work at one core, and give back what they own where that is to
//! be renewed.
ghost use Rattle.std.specs.Prelude.{◌≡◌, IfSome};
ghost use Rattle.pool.specs.Terms.{AreAt, IsReturned, MayBegin};
ghost use Rattle.workers.specs.Turns.{IsTakenFrom};

use crate::dispatch::Dispatcher;
use crate::making::RunShared;
use crate::renewal::renew;
use crate::starting::start_dispatch;
use back::OfProgram;
use committing::Committer;
use counts::WorkerSeat;
use hints::Ring;
use instructions::Predictor;
use station::{Core, UnitSeat};
use std::sync::Wait;
use std::thread;
use std::thread::Threads;
use workers::{Bounds, Gate, RunState, TermShared, start_units, units_at_once};

/// The things that the threads of a term own and give back where the core is to be renewed: all that the dispatch
/// thread owns, and the seat from which those of the units are cut.
#[derive(Drop)]
pub(crate) struct Owned<P: Predictor + Drop> {
    pub dispatcher: Dispatcher<P>,
    pub unit: UnitSeat,
}

/// A term before its threads have begun, or after they have ended: the core, the things that they own or have given
/// back, and the seat from which those that the units count with are cut.
#[derive(Drop)]
pub(crate) struct Term<P: Predictor + Drop> {
    pub core: Core,
    pub owned: Owned<P>,
    pub count: WorkerSeat,
}

// Starts the threads of a term, commits, and returns when each thread has ended. Where the core is to be renewed, the
// things that the threads own come back.
fn commit_in_threads<
    'x,
    'c,
    K: OfProgram + Bounds + Ring + Send + Sync,
    P: Predictor + Drop + Send,
    G: Gate + Sync,
    R: Threads + Wait + Sync,
>(
    shared: &'x TermShared<'x, K, G, R>,
    owned: Owned<P>,
    count: WorkerSeat,
    committer: &'c mut Committer<K>,
) -> (&'c mut Committer<K>, Option<Owned<P>>)
    requires owned { AreAt shared.now.core.now shared.now.state.now.counts
        owned.dispatcher owned.unit count }
    requires back { committer.old.back.core ≡ shared.now.core.now }
    ensures returned { IfSome result.1 (λ r.
        IsReturned shared.now.core.now shared.now.state.now.counts
        r.dispatcher r.unit result.0.now) }
    ensures turns { IfSome result.1 (λ r. IsTakenFrom owned.dispatcher.turns r.dispatcher.turns) }
{
    thread::scope(
        thread::scope_env(),
        shared.wait,
        move |scope| -> (&mut Committer<K>, Option<Owned<P>>)
            requires owned { AreAt shared.now.core.now shared.now.state.now.counts
                owned.dispatcher owned.unit count }
            requires back { committer.now.back.core ≡ shared.now.core.now }
            ensures returned { IfSome result.1 (λ r.
                IsReturned shared.entry.now.core.now shared.entry.now.state.now.counts
                r.dispatcher r.unit result.0.now) }
            ensures turns { IfSome result.1 (λ r.
                IsTakenFrom owned.dispatcher.turns r.dispatcher.turns) }
        {
            let Owned { dispatcher, unit } = owned;
            let Some(dispatching) = start_dispatch(scope, shared, dispatcher) else {
                return (committer, None);
            };
            let Some(unit) = start_units(scope, shared, unit, count) else {
                shared.state.end_run();
                return (committer, None);
            };
            if !committer.work(shared) {
                shared.state.end_run();
                return (committer, None);
            }
            let Some(dispatcher) = dispatching.join(shared.wait) else {
                return (committer, None);
            };
            (committer, Some(Owned { dispatcher, unit }))
        },
    )
}

/// Runs one term after another, each at a renewed core, until the run is over.
pub(crate) fn run_terms<
    K: OfProgram + Bounds + Ring + Send + Sync,
    P: Predictor + Drop + Send,
    G: Gate + Sync,
    R: Threads + Wait + Sync,
>(run: &RunShared<'_, G, R>, state: &RunState<K>, first: Term<P>, committer: &mut Committer<K>)
    requires begins { MayBegin state.now.counts K.config committer.old first }
{
    let mut term = first;
    let mut committer = committer;
    for _ in run.wait.forever() {
        state.begin_term(units_at_once(run.wait));
        let Term { core, owned, count } = term;
        let (count, unit_count) = state.counts.split_workers(count);
        let shared = TermShared {
            wait: run.wait,
            state,
            core: &core,
            gate: run.gate,
        };
        let (after, returned) = commit_in_threads(&shared, owned, unit_count, committer);
        committer = after;
        let Some(owned) = returned else {
            drop(core);
            return;
        };
        let ended = Term { core, owned, count };
        match renew(committer, run.alloc, state, ended) {
            Some(next) => term = next,
            None => return,
        }
    }
    drop(term);
}
