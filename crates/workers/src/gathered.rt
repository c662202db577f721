//! The counts of one thread, gathered and added to the totals now and then, since each addition is a step on words
//! that all threads share.
ghost use Rattle.std.specs.Prelude.{◌≡◌, false};
ghost use Rattle.counts.specs.Shares.{is_kept};
ghost use Rattle.counts.specs.Totals.{position_of};
ghost use Rattle.workers.specs.Gathering.{CountsMore, CountsNoMore, HasGatheredNothing, IsAllAddedBy};

use counts::{Counts, Total, WorkerSeat};

// Counts go to the shared totals in batches of one more than this number.
const ADDED_EACH: u32 = 64;

/// A seat to count with, and how much was counted since it last added to the totals. `end` alone takes it apart, so
/// that nothing that was counted is lost.
pub struct Gathered {
    seat: WorkerSeat,
    lets: u64,
    claims: u64,
    finishes: u64,
    stale: u64,
    squashes: u64,
    mends: u64,
    hints: u64,
    // how often the thread may count before the count with which it adds
    until_added: u32,
}

impl Gathered {
    /// Counts with a seat, with which nothing is gathered yet.
    pub fn new(seat: WorkerSeat) -> Gathered
        ensures seat { result.seat ≡ seat }
        ensures nothing { HasGatheredNothing result }
    {
        Gathered {
            seat,
            lets: 0,
            claims: 0,
            finishes: 0,
            stale: 0,
            squashes: 0,
            mends: 0,
            hints: 0,
            until_added: ADDED_EACH,
        }
    }

    /// Counts k more of a total.
    pub fn count(&mut self, counts: &Counts, total: Total, k: u64)
        requires seat { self.old.seat.of ≡ counts.now }
        requires other { is_kept (position_of total) ≡ false }
        ensures of { self.new.seat.of ≡ counts.now }
        ensures counted { CountsMore total k self.old self.new }
    {
        self.gather(counts, total, k);
        if self.until_added == 0 {
            self.add(counts);
        } else {
            self.until_added -= 1;
        }
    }

    // Gathers k of a total, or adds them to a total that is not gathered.
    fn gather(&mut self, counts: &Counts, total: Total, k: u64)
        requires seat { self.old.seat.of ≡ counts.now }
        requires other { is_kept (position_of total) ≡ false }
        ensures of { self.new.seat.of ≡ counts.now }
        ensures counted { CountsMore total k self.old self.new }
    {
        match total {
            Total::Lets => self.lets = self.lets.wrapping_add(k),
            Total::Claims => self.claims = self.claims.wrapping_add(k),
            Total::Finishes => self.finishes = self.finishes.wrapping_add(k),
            Total::Stale => self.stale = self.stale.wrapping_add(k),
            Total::Squashes => self.squashes = self.squashes.wrapping_add(k),
            Total::Mends => self.mends = self.mends.wrapping_add(k),
            Total::Hints => self.hints = self.hints.wrapping_add(k),
            Total::Loads | Total::Retires | Total::Renewals => {
                counts.add_work(&mut self.seat, total, k);
            }
        }
    }

    /// Adds all that is gathered to the totals, and gives the seat back.
    pub fn end(mut self, counts: &Counts) -> WorkerSeat
        requires { self.seat.of ≡ counts.now }
        ensures of { result.of ≡ counts.now }
        ensures added { IsAllAddedBy self result }
    {
        self.add(counts);
        let Gathered {
            seat,
            lets: _,
            claims: _,
            finishes: _,
            stale: _,
            squashes: _,
            mends: _,
            hints: _,
            until_added: _,
        } = self;
        seat
    }

    // Adds all that was gathered to the totals.
    fn add(&mut self, counts: &Counts)
        requires { self.old.seat.of ≡ counts.now }
        ensures of { self.new.seat.of ≡ counts.now }
        ensures counted { CountsNoMore self.old self.new }
        ensures nothing { HasGatheredNothing self.new }
    {
        counts.add_work(&mut self.seat, Total::Lets, self.lets);
        counts.add_work(&mut self.seat, Total::Claims, self.claims);
        counts.add_work(&mut self.seat, Total::Finishes, self.finishes);
        counts.add_work(&mut self.seat, Total::Stale, self.stale);
        counts.add_work(&mut self.seat, Total::Squashes, self.squashes);
        counts.add_work(&mut self.seat, Total::Mends, self.mends);
        counts.add_work(&mut self.seat, Total::Hints, self.hints);
        self.begin_again();
    }

    // Begins to gather again, where all that was gathered is added.
    fn begin_again(&mut self)
        ensures seat { self.new.seat ≡ self.old.seat }
        ensures nothing { HasGatheredNothing self.new }
    {
        self.lets = 0;
        self.claims = 0;
        self.finishes = 0;
        self.stale = 0;
        self.squashes = 0;
        self.mends = 0;
        self.hints = 0;
        self.until_added = ADDED_EACH;
    }
}
