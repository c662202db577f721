//! A snapshot thread.
ghost use Rattle.snapshots.specs.Snapshots.{IsSnapshotOf};

use hints::Ring;
use snapshots::{OfProgram, Snap, Snapper};
use std::sync::Wait;
use workers::{Bounds, Gate, RunState};

// Passes a snapshot to the gate, with the number of its place. Its caller owes that it is one of the program.
fn pass_snapshot<K: OfProgram, G: Gate>(gate: &G, place: u32, snap: &Snap)
    requires { IsSnapshotOf K.program snap.now }
{
    gate.seen(place, snap);
}

/// Takes snapshots and passes them to the gate: the first at once, and one more each time that a snapshot was shown, or
/// the run is over.
pub(crate) fn watch<K: OfProgram + Bounds + Ring, G: Gate, R: Wait>(
    wait: &R,
    state: &RunState<K>,
    gate: &G,
    place: u32,
    mut snapper: Snapper<K>,
) {
    for _ in 0..state.turns {
        let news = state.news();
        let has_ended = state.has_run_ended();
        if let Ok(snap) = snapper.take() {
            pass_snapshot::<K, G>(gate, place, &snap);
        }
        if has_ended {
            return;
        }
        state.wait_for_news(wait, news);
    }
}
