//! The next term of a run, at a renewed core.
ghost use Rattle.std.specs.Prelude.{◌≡◌, IfNone, IfSome, Some};
ghost use Rattle.pool.specs.Terms.{AreRenewed, IsReturned, MayBegin};
ghost use Rattle.workers.specs.Configured.{configured_sizes};

use crate::dispatch::Dispatcher;
use crate::terms::{Owned, Term};
use back::OfProgram;
use committing::{Committer, Refusal};
use front::a_front_enters_behind_a_renewal;
use hints::Ring;
use instructions::Predictor;
use std::alloc::Global;
use workers::{Bounds, RunState};

/// The next term, at another core, whose tags begin again, where there is memory for it. The back leaves the old core and
/// enters the other one, and goes on with the turns that are left. Without memory it enters the old core again.
pub(crate) fn renew<K: OfProgram + Bounds + Ring, P: Predictor + Drop>(
    committer: &mut Committer<K>,
    alloc: Global,
    state: &RunState<K>,
    term: Term<P>,
) -> Option<Term<P>>
    requires returned { IsReturned term.core state.now.counts
        term.owned.dispatcher term.owned.unit committer.old }
    requires sizes { term.core.sizes ≡ configured_sizes K.config }
    requires count { term.count.of ≡ state.now.counts }
    ensures turns { committer.new.turns ≡ committer.old.turns }
    ensures begins { IfSome result (MayBegin state.now.counts K.config committer.new) }
    ensures refused { IfNone result (committer.new.wanting ≡ Some Refusal.Memory) }
    ensures goes_on { IfSome result (λ next.
        AreRenewed term.core term.owned.dispatcher.seat.seen
        next.core next.owned.dispatcher.seat next.owned.unit committer.new.back.core) }
    ensures front_turns { IfSome result (λ next.
        next.owned.dispatcher.turns ≡ term.owned.dispatcher.turns) }
{
    a_front_enters_behind_a_renewal();
    let Term { core, owned, count } = term;
    let Owned { dispatcher, unit } = owned;
    let Dispatcher {
        seat,
        begin,
        count: front_count,
        turns,
    } = dispatcher;
    let (core, seat, unit) = committer.renew(alloc, state, core, seat, unit)?;
    let dispatcher = Dispatcher {
        seat,
        begin,
        count: front_count,
        turns,
    };
    let owned = Owned { dispatcher, unit };
    Some(Term { core, owned, count })
}
