//! Starts the dispatch thread.
ghost use Rattle.std.specs.Prelude.{◌≡◌, IfSome};
ghost use Rattle.pool.specs.Terms.{Begins, IsGivenBack};
ghost use Rattle.workers.specs.Turns.{IsTakenFrom};

use crate::dispatch::{Dispatcher, dispatch};
use counts::Counts;
use hints::Ring;
use instructions::Predictor;
use station::Core;
use std::snapshot::Snapshot;
use std::sync::Wait;
use std::thread::{Promise, PromisedHandle, Scope};
use workers::{Bounds, TermShared, Turns};

/// The promise of a dispatch thread: its seats are of this core and these totals, and some of these turns are taken.
#[derive(Drop)]
pub(crate) struct GivesBack(Snapshot<Core>, Snapshot<Counts>, Snapshot<Turns>);

impl<P: Predictor + Drop> Promise<Option<Dispatcher<P>>> for GivesBack {
    ghost use Rattle.std.specs.Prelude.{IfSome};
    ghost use Rattle.pool.specs.Terms.{IsGivenBack};
    ghost use Rattle.workers.specs.Turns.{IsTakenFrom};

    ghost kept_by = { λ p r. IfSome r (λ next.
        IsGivenBack p.0.value p.1.value next × IsTakenFrom p.2.value next.turns) };
}

/// A dispatch thread, which gives back all that it owns where the core is to be renewed.
pub(crate) type Dispatching<P> = PromisedHandle<Option<Dispatcher<P>>, GivesBack>;

/// Starts the thread that dispatches.
pub(crate) fn start_dispatch<
    's,
    E: 's,
    K: Bounds + Ring + Send + Sync + 's,
    P: Predictor + Drop + Send + 's,
    G: Sync + 's,
    R: Wait + Sync + 's,
>(
    scope: &Scope<'s, E>,
    shared: &'s TermShared<'s, K, G, R>,
    dispatcher: Dispatcher<P>,
) -> Option<Dispatching<P>>
    requires begins { Begins shared.now.core.now dispatcher.begin dispatcher.seat }
    requires count { dispatcher.count.of ≡ shared.now.state.now.counts }
    ensures core { IfSome result (λ thread. thread.promise.0.value ≡ shared.now.core.now) }
    ensures counts { IfSome result (λ thread.
        thread.promise.1.value ≡ shared.now.state.now.counts) }
    ensures turns { IfSome result (λ thread. thread.promise.2.value ≡ dispatcher.turns) }
{
    let promise = GivesBack(
        Snapshot::of(shared.core),
        Snapshot::of(&shared.state.counts),
        Snapshot::of(&dispatcher.turns),
    );
    let job = move || -> Option<Dispatcher<P>>
        requires begins { Begins shared.now.core.now dispatcher.begin dispatcher.seat }
        requires count { dispatcher.count.of ≡ shared.now.state.now.counts }
        ensures gives { IfSome result (IsGivenBack shared.entry.now.core.now
            shared.entry.now.state.now.counts) }
        ensures turns { IfSome result (λ next. IsTakenFrom dispatcher.turns next.turns) }
    { dispatch(shared, dispatcher) };
    scope.spawn_with(promise, job).ok()
}
