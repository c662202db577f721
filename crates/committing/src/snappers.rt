//! Starts the snapshot threads of a run.
use crate::watch::watch;
use back::{OfProgram, Snapper};
use hints::Ring;
use std::sync::Wait;
use std::thread::Scope;
use workers::{Bounds, Gate, RunState};

// Starts the thread of a place. False where it cannot be started.
fn start_snapper<
    's,
    E: 's,
    K: OfProgram + Bounds + Ring + Send + Sync + 's,
    G: Gate + Sync + 's,
    R: Wait + Sync + 's,
>(
    scope: &Scope<'s, E>,
    wait: &'s R,
    state: &'s RunState<K>,
    gate: &'s G,
    place: u32,
    snapper: Snapper<K>,
) -> bool {
    let Ok(_thread) = scope.spawn(move || watch(wait, state, gate, place, snapper)) else {
        return false;
    };
    true
}

/// Starts a snapshot thread for each place that has a snapper, place 1 last. False where one cannot be started.
pub fn start_snappers<
    's,
    E: 's,
    K: OfProgram + Bounds + Ring + Send + Sync + 's,
    G: Gate + Sync + 's,
    R: Wait + Sync + 's,
>(
    scope: &Scope<'s, E>,
    wait: &'s R,
    state: &'s RunState<K>,
    gate: &'s G,
    places: u32,
    mut first: Snapper<K>,
) -> bool {
    for place in 1..places {
        if let Ok(snapper) = first.another() {
            if !start_snapper(scope, wait, state, gate, place + 1, snapper) {
                return false;
            }
        }
    }
    start_snapper(scope, wait, state, gate, 1, first)
}
