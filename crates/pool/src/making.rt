//! Makes a run, before a thread has begun.
ghost use Rattle.std.specs.Prelude.{◌≡◌, [], IfOk};
ghost use Rattle.counts.specs.Shares.{all_parts};
ghost use Rattle.pool.specs.Terms.{MayBegin};
ghost use Rattle.workers.specs.Turns.{untaken};

use crate::dispatch::{Begin, Dispatcher};
use crate::terms::{Owned, Term};
use back::{Back, OfProgram, Snapper};
use committing::Committer;
use counts::{CountSeat, Counts};
use hints::{Hints, Ring};
use instructions::{Config, Memory, Predictor, Program};
use station::Core;
use std::alloc::Global;
use workers::{Bounds, RunState, Turns};

/// All that the terms of a run share: how its threads wait, where it allocates, the program, how it is to run, and its
/// gate.
#[derive(Drop)]
pub(crate) struct RunShared<'x, G, R> {
    pub wait: &'x R,
    pub alloc: Global,
    pub program: &'x Program,
    pub config: &'x Config,
    pub gate: &'x G,
}

/// Makes the state of a run before its first term, with hints for its ring.
pub(crate) fn make_state<K: Bounds + Ring>(
    alloc: Global,
    config: &Config,
    counts: Counts,
) -> Result<RunState<K>, Memory>
    requires config { config.now ≡ K.config }
    requires counts { counts ≡ K.counts }
    requires ring { config.now.ring ≡ K.ring }
{
    let hints = Hints::<K>::new(alloc, config.ring() as usize)?;
    RunState::new(alloc, counts, hints, config.units(), config.turns())
}

/// Makes the commit side of a run, its first term, and its first snapper.
pub(crate) fn make<K: OfProgram + Bounds + Ring, P: Predictor + Drop, G, R>(
    run: &RunShared<'_, G, R>,
    state: &RunState<K>,
    count: CountSeat,
    predictor: P,
) -> Result<(Committer<K>, Term<P>, Snapper<K>), Memory>
    requires count { count ≡ record { of = K.counts; shares = all_parts; seen = [] } }
    requires program { run.now.program.now ≡ K.program }
    requires config { run.now.config.now ≡ K.config }
    ensures begins { IfOk result (λ made. MayBegin K.counts K.config made.0 made.1) }
    ensures turns { IfOk result (λ made. made.1.owned.dispatcher.turns ≡ untaken (K.config).turns) }
{
    let (config, program) = (run.config, run.program);
    let (core, front, seat, unit) = Core::make(run.alloc, program, config)?;
    let (back, snapper) = match Back::<K>::new(run.alloc, &core, seat, program, config) {
        Ok(made) => made,
        Err((memory, _seat)) => {
            drop(core);
            return Err(memory);
        }
    };
    let (back_count, workers) = state.counts.split_worker(count);
    let (front_count, unit_count) = state.counts.split_workers(workers);
    let committer = Committer::<K>::new(back, back_count, config.limit(), config.turns());
    let dispatcher = Dispatcher {
        seat: front,
        begin: Begin::Fresh(predictor),
        count: front_count,
        turns: Turns::new(config.turns()),
    };
    let term = Term {
        core,
        owned: Owned { dispatcher, unit },
        count: unit_count,
    };
    Ok((committer, term, snapper))
}
