//! Starts unit threads.
ghost use Rattle.std.specs.Prelude.{◌≡◌, ◌≤◌, ◌+◌, IfSome};
ghost use Rattle.workers.specs.Deeds.{HasAddedDeeds};

use crate::bounds::Bounds;
use crate::compute::work;
use crate::gate::Gate;
use crate::shared::TermShared;
use crate::unit::Worker;
use counts::WorkerSeat;
use hints::Ring;
use station::UnitSeat;
use std::sync::Wait;
use std::thread::{Scope, Threads, available_parallelism};

// The most units that a run has.
const MOST_UNITS: u64 = 64;

// How many units are active at once on n processors, beside the threads that dispatch and commit.
fn units_on(processors: u64) -> u64
    ensures one { processors ≤ 3 → result ≡ 1 }
    ensures beside { 3 ≤ processors → processors ≤ MOST_UNITS + 2 → result + 2 ≡ processors }
    ensures all { MOST_UNITS + 2 ≤ processors → result ≡ MOST_UNITS }
{
    processors.saturating_sub(2).clamp(1, MOST_UNITS)
}

/// How many units are active at once: what the machine runs beside two other threads, but one at least, and all of them
/// where it does not say how many processors it has.
pub fn units_at_once<R: Threads>(rt: &R) -> u64
    ensures { 1 ≤ result }
{
    match available_parallelism(rt) {
        Ok(processors) => units_on(processors.get() as u64),
        Err(_) => MOST_UNITS,
    }
}

// Starts the thread of a unit. False where it cannot be started.
fn start_unit<
    's,
    E: 's,
    K: Bounds + Ring + Send + Sync + 's,
    G: Gate + Sync + 's,
    R: Wait + Sync + 's,
>(scope: &Scope<'s, E>, shared: &'s TermShared<'s, K, G, R>, worker: Worker) -> bool
    requires core { worker.seat.core ≡ shared.now.core.now }
    requires count { worker.count.of ≡ shared.now.state.now.counts }
    requires first { 1 ≤ worker.number }
    requires last { worker.number ≤ shared.now.state.now.units }
{
    let job = move || -> Worker
        requires core { worker.seat.core ≡ shared.now.core.now }
        requires count { worker.count.of ≡ shared.now.state.now.counts }
        requires first { 1 ≤ worker.number }
        requires last { worker.number ≤ shared.now.state.now.units }
        ensures added { HasAddedDeeds worker result }
    { work(shared, worker) };
    let Ok(_thread) = scope.spawn(job) else {
        return false;
    };
    true
}

/// Starts the unit threads of a term. Each has seen all that the first seat has. The seat that remains has claimed
/// nothing. None where a thread cannot be started.
pub fn start_units<
    's,
    E: 's,
    K: Bounds + Ring + Send + Sync + 's,
    G: Gate + Sync + 's,
    R: Wait + Sync + 's,
>(
    scope: &Scope<'s, E>,
    shared: &'s TermShared<'s, K, G, R>,
    seat: UnitSeat,
    count: WorkerSeat,
) -> Option<UnitSeat>
    requires core { seat.core ≡ shared.now.core.now }
    requires count { count.of ≡ shared.now.state.now.counts }
    ensures { IfSome result (λ rest. rest.core ≡ shared.now.core.now) }
{
    let mut seat = seat;
    let mut count = count;
    for unit in 0..shared.state.units {
        let (own, others) = shared.core.split(seat);
        let (own_count, counts) = shared.state.counts.split_workers(count);
        seat = others;
        count = counts;
        let worker = Worker {
            number: unit + 1,
            seat: own,
            count: own_count,
        };
        if !start_unit(scope, shared, worker) {
            return None;
        }
    }
    Some(seat)
}
