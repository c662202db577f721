//! A unit, and what its thread owns.
ghost use Rattle.std.specs.Prelude.{◌≡◌};
ghost use Rattle.workers.specs.Gathering.{CountsClaim, HasGatheredNothing, IsAllAddedBy};
ghost use Rattle.workers.specs.Units.{Works};

use crate::backoff::Backoff;
use crate::bounds::Bounds;
use crate::gathered::Gathered;
use crate::search::{Candidate, Search};
use crate::shared::TermShared;
use counts::{Total, WorkerSeat};
use hints::Ring;
use station::UnitSeat;

/// A unit before and after its work, as its thread owns it: the number from 1 on, its seat, and the one that it counts
/// with.
#[derive(Drop)]
pub struct Worker {
    pub(crate) number: u32,
    pub(crate) seat: UnitSeat,
    pub(crate) count: WorkerSeat,
}

/// A unit at work: its number, its seat, its counts, where it looks for work, how it backs off, and how often it has
/// found work since it last looked in vain without a hint.
pub struct Unit {
    pub(crate) number: u32,
    pub(crate) seat: UnitSeat,
    pub(crate) count: Gathered,
    pub(crate) search: Search,
    pub(crate) backoff: Backoff,
    streak: usize,
}

impl Unit {
    /// The unit goes to work at the core of a term.
    pub(crate) fn enter<K: Bounds + Ring, G, R>(
        shared: &TermShared<'_, K, G, R>,
        worker: Worker,
    ) -> Unit
        requires core { worker.seat.core ≡ shared.now.core.now }
        requires count { worker.count.of ≡ shared.now.state.now.counts }
        ensures works { Works shared.now.core.now shared.now.state.now.counts
            shared.now.state.now.hints result }
        ensures seat { result.seat ≡ worker.seat }
        ensures count { result.count.seat ≡ worker.count }
        ensures nothing { HasGatheredNothing result.count }
    {
        let Worker {
            number,
            seat,
            count,
        } = worker;
        Unit {
            number,
            seat,
            count: Gathered::new(count),
            search: Search::new(&shared.state.hints),
            backoff: Backoff::after(shared.core.ring() as u32 / 2),
            streak: 0,
        }
    }

    /// The unit stops: all that it has counted is added to the totals.
    pub(crate) fn stop<K: Bounds + Ring, G, R>(self, shared: &TermShared<'_, K, G, R>) -> Worker
        requires { Works shared.now.core.now shared.now.state.now.counts
            shared.now.state.now.hints self }
        ensures seat { result.seat ≡ self.seat }
        ensures added { IsAllAddedBy self.count result.count }
    {
        let Unit {
            number,
            seat,
            count,
            search: _,
            backoff: _,
            streak: _,
        } = self;
        Worker {
            number,
            seat,
            count: count.end(&shared.state.counts),
        }
    }

    /// Backs off, where the unit has looked in vain.
    pub(crate) fn back_off(&mut self, candidate: Candidate)
        ensures seat { self.new.seat ≡ self.old.seat }
        ensures count { self.new.count ≡ self.old.count }
        ensures search { self.new.search ≡ self.old.search }
    {
        if let Candidate::Next(_) = candidate {
            self.streak = 0;
        }
        self.backoff.snooze();
    }

    /// Counts the claim of a job, and whether its station came as a hint. Where the unit has found work as often as
    /// the queue takes hints, and never looked in vain without one, there is enough for another unit.
    pub(crate) fn count_claim<K: Bounds + Ring, G, R>(
        &mut self,
        shared: &TermShared<'_, K, G, R>,
        candidate: Candidate,
    )
        requires { Works shared.now.core.now shared.now.state.now.counts
            shared.now.state.now.hints self.old }
        ensures seat { self.new.seat ≡ self.old.seat }
        ensures search { self.new.search ≡ self.old.search }
        ensures works { Works shared.now.core.now shared.now.state.now.counts
            shared.now.state.now.hints self.new }
        ensures counted { CountsClaim candidate self.old.count self.new.count }
    {
        self.backoff.reset();
        self.count.count(&shared.state.counts, Total::Claims, 1);
        if let Candidate::Hinted(_) = candidate {
            self.count.count(&shared.state.counts, Total::Hints, 1);
        }
        if self.streak < 2 * shared.core.ring() {
            self.streak += 1;
        } else {
            self.streak = 0;
            shared.state.activate_for_work();
        }
    }
}
