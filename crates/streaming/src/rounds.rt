//! The rounds of a flow: an instruction enters, and the oldest leaves.
ghost use Rattle.std.specs.Prelude.{⊤, ◌≡◌, ◌<◌, ◌≤◌, length};
ghost use Rattle.streaming.specs.Departing.{ahead_to, run_in};
ghost use Rattle.streaming.specs.Flow.{CanRestore, Flows, HasGoneRound, in_order};
ghost use Rattle.one_thread.specs.Producers.{Chosen};

use crate::departing::{depart, leave_flow};
use crate::entering::{can_enter, enter_after, enter_flow, upcoming};
use crate::flow::Flow;
use instructions::Predictor;
use one_thread::{Pipeline, leave_untold};

// The ring is full: as long as the count has not reached a limit and the next can enter, the oldest leaves and the
// next enters its station. Answers whether each has completed.
#[inline(always)]
fn round<P: Predictor>(
    unit: &mut Pipeline<'_>,
    predictor: &mut P,
    flow: &mut Flow,
    limit: u64,
) -> bool
    requires flow { Flows unit.old flow.old }
    requires full { length flow.old.ring.completed ≡ unit.old.ring }
    requires below { unit.old.committed.count < limit }
    ensures entered { HasGoneRound unit.new flow.new result }
    ensures room { Chosen result (length flow.new.ring.completed < unit.new.ring) ⊤ }
    ensures code { unit.new.code ≡ unit.old.code }
    ensures program { unit.new.program ≡ unit.old.program }
    ensures more { unit.old.committed.count ≤ unit.new.committed.count }
    ensures ends { run_in unit.new flow.new limit ≡ run_in unit.old flow.old limit }
    ensures less { ahead_to limit unit.new flow.new ≤ ahead_to limit unit.old flow.old }
{
    loop {
        let station = flow.ring.station();
        let left = depart(unit, flow);
        if limit <= unit.committed.count() || !can_enter(unit, flow) {
            leave_untold(&mut unit.leavers, station, left);
            return true;
        }
        let from = flow.ring.len();
        let Some(_) = enter_after::<P, true>(unit, predictor, flow, left, station, from) else {
            return false;
        };
    }
}

/// Lets instructions enter a flow, and the oldest leave it, as long as each completes and the count has not
/// reached a limit. Answers how many of the oldest stay completed: the younger ones were let in a row with the last
/// one, and may be treated as fetched only.
#[inline(always)]
pub fn flows<P: Predictor>(
    unit: &mut Pipeline<'_>,
    predictor: &mut P,
    flow: &mut Flow,
    limit: u64,
) -> usize
    requires flow { Flows unit.old flow.old }
    requires room { length flow.old.ring.completed < unit.old.ring }
    ensures flow { CanRestore (in_order unit.new flow.new) flow.new result }
    ensures code { unit.new.code ≡ unit.old.code }
    ensures program { unit.new.program ≡ unit.old.program }
    ensures more { unit.old.committed.count ≤ unit.new.committed.count }
    ensures ends { run_in unit.new flow.new limit ≡ run_in unit.old flow.old limit }
{
    let mut from = flow.ring.len();
    while unit.committed.count() < limit {
        let Some(fits) = upcoming(unit, flow) else {
            return from;
        };
        if !fits {
            leave_flow(unit, flow);
            from = flow.ring.len();
            continue;
        }
        let Some(closed) = enter_flow(unit, predictor, flow, from) else {
            return from;
        };
        from = closed;
        if flow.ring.len() == unit.ring {
            if !round(unit, predictor, flow, limit) {
                return flow.ring.len();
            }
            from = flow.ring.len();
        }
    }
    from
}
