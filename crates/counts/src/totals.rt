//! The totals, and every call on them.
ghost use Rattle.std.specs.Prelude.{◌≡◌, ◌%◌, ◌^◌, ◌<◌, IfOk, [], false};
ghost use Rattle.counts.specs.Known.{HasAdded, longer, total_at};
ghost use Rattle.instructions.specs.Histories.{StartsWith};
ghost use Rattle.counts.specs.Reads.{HoldsAll, WasTotal};
ghost use Rattle.counts.specs.Shares.{all_parts, first_half, merged, added_to, second_half};
ghost use Rattle.counts.specs.Shares.{is_kept, share_of, with_kept, without_kept};
ghost use Rattle.counts.specs.Totals.{position_of, tallied};

use crate::seats::{CountSeat, WorkerSeat};
use crate::shares::{Add, Halving, Hiring, Joining, Known, Look, Sums};
use crate::tally::{Tally, Total};
use atomic_table::{Seat, Table};
use instructions::Memory;
use std::alloc::Global;
use std::marker::Model;

// Eight words for each total, of which the first is used.
const WORDS: usize = 80;

/// The totals. Contracts see which they are.
#[derive(Drop)]
pub struct Counts {
    table: Table<(), Known, (), Sums, Global>,
}

impl Model for Counts {
    ghost use Rattle.std.specs.Prelude.{◌≡◌, ◌*◌};
    ghost use Rattle.atomic_table.specs.Seated.{TableId};
    ghost use Rattle.counts.specs.Totals.{total_count};

    ghost Value = { TableId };

    ghost view = { λ c. c.table.shared.table_id };

    ghost invariant = { λ c. c.table.shared.table_id.words ≡ 8 * total_count };
}

impl Counts {
    /// Totals of 0, and a seat that holds all parts of each.
    pub fn make(alloc: Global) -> Result<(Counts, CountSeat), Memory>
        ensures { IfOk result (λ made.
            made.1 ≡ record { of = made.0; shares = all_parts; seen = [] }) }
    {
        let (table, seat) = Table::of_words(alloc, &[0; WORDS], &())?;
        Ok((Counts { table }, CountSeat { seat }))
    }

    /// Splits a seat into two, each with half of its parts. The first keeps the amounts that were added, and the
    /// second has added nothing. Both have seen as much as this seat.
    pub fn split(&self, mut seat: CountSeat) -> (CountSeat, CountSeat)
        requires seat { seat.of ≡ self.now }
        ensures first { result.0 ≡ record {
          of = self.now;
          shares = first_half seat.shares;
          seen = seat.seen;
        } }
        ensures second { result.1 ≡ record {
          of = self.now;
          shares = second_half seat.shares;
          seen = seat.seen;
        } }
    {
        let second = self.table.shared.split_seat::<Halving>(&mut seat.seat);
        (seat, CountSeat { seat: second })
    }

    /// Joins two seats to one with the shares and the parts of both, which has seen all that either has.
    pub fn join(&self, mut seat: CountSeat, other: CountSeat) -> CountSeat
        requires seat { seat.of ≡ self.now }
        requires other { other.of ≡ self.now }
        ensures { result ≡ record {
          of = self.now;
          shares = merged seat.shares other.shares;
          seen = longer seat.seen other.seen;
        } }
    {
        let CountSeat { seat: other } = other;
        self.table
            .shared
            .join_seat::<Joining>(&mut seat.seat, other);
        seat
    }

    /// Adds to a total, and so to the seat's own share of it.
    pub fn add(&self, seat: &mut CountSeat, total: Total, k: u64)
        requires seat { seat.old.of ≡ self.now }
        ensures of { seat.new.of ≡ self.now }
        ensures shares { seat.new.shares ≡ added_to total k seat.old.shares }
        ensures seen { HasAdded total k seat.old.seen seat.new.seen }
    {
        self.raise(&mut seat.seat, total, k);
    }

    /// Reads each total, at a moment of its own within the call: the sum of what all seats have added until then.
    pub fn read(&self, seat: &mut CountSeat) -> Tally
        requires seat { seat.old.of ≡ self.now }
        ensures of { seat.new.of ≡ self.now }
        ensures shares { seat.new.shares ≡ seat.old.shares }
        ensures totals { (total : Total) →
            WasTotal seat.old.seen seat.new.seen total (tallied result total) }
        ensures exact { (total : Total) → HoldsAll total seat.old.shares →
            tallied result total ≡ (share_of total seat.old.shares).added % 2 ^ 64 }
    {
        self.all(&mut seat.seat)
    }

    /// Splits off a worker's seat, which has added nothing. The first seat keeps the amounts that were added, all of
    /// its part of the retirements and of the renewals, and half of its other parts.
    pub fn split_worker(&self, mut seat: CountSeat) -> (CountSeat, WorkerSeat)
        requires seat { seat.of ≡ self.now }
        ensures first { result.0 ≡ record {
          of = self.now;
          shares = with_kept seat.shares;
          seen = seat.seen;
        } }
        ensures second { result.1 ≡ record {
          of = self.now;
          shares = without_kept seat.shares;
          seen = seat.seen;
        } }
    {
        let second = self.table.shared.split_seat::<Hiring>(&mut seat.seat);
        (seat, WorkerSeat { seat: second })
    }

    /// Splits a worker's seat into two, as `split` does.
    pub fn split_workers(&self, mut seat: WorkerSeat) -> (WorkerSeat, WorkerSeat)
        requires seat { seat.of ≡ self.now }
        ensures first { result.0 ≡ record {
          of = self.now;
          shares = first_half seat.shares;
          seen = seat.seen;
        } }
        ensures second { result.1 ≡ record {
          of = self.now;
          shares = second_half seat.shares;
          seen = seat.seen;
        } }
    {
        let other = self.table.shared.split_seat::<Halving>(&mut seat.seat);
        (seat, WorkerSeat { seat: other })
    }

    /// Adds to a total, as `add` does.
    pub fn add_work(&self, seat: &mut WorkerSeat, total: Total, k: u64)
        requires seat { seat.old.of ≡ self.now }
        requires other { is_kept (position_of total) ≡ false }
        ensures of { seat.new.of ≡ self.now }
        ensures shares { seat.new.shares ≡ added_to total k seat.old.shares }
        ensures seen { HasAdded total k seat.old.seen seat.new.seen }
    {
        self.raise(&mut seat.seat, total, k);
    }

    // One addition to a word.
    fn raise(&self, seat: &mut Seat<(), Known>, total: Total, k: u64)
        requires seat { seat.old.table_id ≡ self.now }
        requires part { 0 < (share_of total seat.old.me.0.shares).parts }
        ensures of { seat.new.table_id ≡ seat.old.table_id }
        ensures slots { seat.new.me.1 ≡ seat.old.me.1 }
        ensures shares { seat.new.me.0.shares ≡ added_to total k seat.old.me.0.shares }
        ensures seen { HasAdded total k seat.old.me.0.seen seat.new.me.0.seen }
    {
        let word = total.word();
        self.table.shared.fetch_add::<Add>(seat, word, k);
    }

    // One look at a word.
    fn total(&self, seat: &mut Seat<(), Known>, total: Total) -> u64
        requires seat { seat.old.table_id ≡ self.now }
        ensures of { seat.new.table_id ≡ seat.old.table_id }
        ensures slots { seat.new.me.1 ≡ seat.old.me.1 }
        ensures shares { seat.new.me.0.shares ≡ seat.old.me.0.shares }
        ensures seen { StartsWith seat.new.me.0.seen seat.old.me.0.seen }
        ensures total { result ≡ total_at (position_of total) seat.new.me.0.seen % 2 ^ 64 }
        ensures exact { HoldsAll total seat.old.me.0.shares →
            result ≡ (share_of total seat.old.me.0.shares).added % 2 ^ 64 }
    {
        let word = total.word();
        self.table.shared.load::<Look>(seat, word)
    }

    // A look at each word.
    fn all(&self, seat: &mut Seat<(), Known>) -> Tally
        requires seat { seat.old.table_id ≡ self.now }
        ensures of { seat.new.table_id ≡ seat.old.table_id }
        ensures slots { seat.new.me.1 ≡ seat.old.me.1 }
        ensures shares { seat.new.me.0.shares ≡ seat.old.me.0.shares }
        ensures totals { (total : Total) →
            WasTotal seat.old.me.0.seen seat.new.me.0.seen total (tallied result total) }
        ensures exact { (total : Total) → HoldsAll total seat.old.me.0.shares →
            tallied result total ≡ (share_of total seat.old.me.0.shares).added % 2 ^ 64 }
    {
        Tally {
            lets: self.total(seat, Total::Lets),
            claims: self.total(seat, Total::Claims),
            finishes: self.total(seat, Total::Finishes),
            stale: self.total(seat, Total::Stale),
            loads: self.total(seat, Total::Loads),
            retires: self.total(seat, Total::Retires),
            squashes: self.total(seat, Total::Squashes),
            mends: self.total(seat, Total::Mends),
            hints: self.total(seat, Total::Hints),
            renewals: self.total(seat, Total::Renewals),
        }
    }
}
