//! The oldest tenants are dropped once nothing asks for them.
ghost use Rattle.std.specs.Prelude.{◌≡◌, ◌<◌, ◌≤◌, ◌+◌, ℕ, IsTrue, Some, length, slice_get};
ghost use Rattle.inorder.specs.declared.history.Source.{Source};
ghost use Rattle.replay.specs.Dropping.{AreClosed, IsClosed, IsDropped, NeedsFrom, NeedsFromBoth};
ghost use Rattle.replay.specs.Lets.{sizes_of};
ghost use Rattle.replay.specs.Shown.{shown};

use crate::claim::creator;
use crate::tenant::{Tenant, Way};
use crate::unit::Unit;
use crate::wakeup::{is_nothing, operand};
use inorder::history::Source;

// This number of those that have left are not dropped: a refusal has their words.
const LEAST: usize = 4096;

// The counts of this number of stations are not dropped.
const STATIONS: usize = 0x1_0000_0000;

impl<'a> Unit<'a> {
    // A source of the tenant at a position gets no link and no value any more.
    fn is_closed(&self, who: usize, tenant: &Tenant, k: Source) -> bool
        requires kept { self.now.tenants.from ≤ who }
        requires is { slice_get self.now.tenants.items who ≡ Some tenant.now }
        ensures { IsTrue result → IsClosed self.now.tenants.items who tenant.now k }
    {
        let source = operand(tenant, k);
        match source.way {
            Way::AtLet => true,
            Way::Unlinked => false,
            Way::Linked(_) => match source.value {
                Some(_) => true,
                None => is_nothing(self.value_before(who, source.creator)),
            },
        }
    }

    // The sources of the tenant at a position get no link and no value any more.
    fn are_closed(&self, who: usize) -> bool
        requires kept { self.now.tenants.from ≤ who }
        requires there { who < length self.now.tenants.items }
        ensures { IsTrue result → AreClosed self.now.tenants.items who }
    {
        let tenant = self.there(who);
        self.is_closed(who, tenant, Source::First) && self.is_closed(who, tenant, Source::Second)
    }

    // How many of the oldest have left, and get no link and no value any more.
    fn closed(&self) -> usize
        ensures within { result ≤ self.now.settled.upto }
        ensures late { self.now.tenants.from ≤ result }
        ensures closed { (q : ℕ) → q < result → AreClosed self.now.tenants.items q }
    {
        for q in self.tenants.first()..self.settled.upto {
            if !self.are_closed(q) {
                return q;
            }
        }
        self.settled.upto
    }

    // The position of who makes a source of the tenant at a position, if it is not closed and before another position.
    fn needed_by(&self, who: usize, tenant: &Tenant, k: Source, before: usize) -> usize
        requires kept { self.now.tenants.from ≤ who }
        requires is { slice_get self.now.tenants.items who ≡ Some tenant.now }
        ensures less { result ≤ before }
        ensures needs { NeedsFrom self.now.tenants.items who tenant.now k result }
    {
        if self.is_closed(who, tenant, k) {
            return before;
        }
        match creator(tenant, k) {
            Some(q) if q < before => q,
            _ => before,
        }
    }

    // The least position of who makes a source of the tenant at a position that is not closed, if it is before another.
    fn needed(&self, who: usize, before: usize) -> usize
        requires kept { self.now.tenants.from ≤ who }
        requires there { who < length self.now.tenants.items }
        ensures less { result ≤ before }
        ensures needs { NeedsFromBoth self.now.tenants.items who result }
    {
        let tenant = self.there(who);
        let first = self.needed_by(who, tenant, Source::First, before);
        self.needed_by(who, tenant, Source::Second, first)
    }

    // How many of the oldest nothing asks for.
    fn unasked(&self) -> usize
        ensures { IsDropped self.now.tenants.items result self.now.settled.upto }
    {
        let closed = self.closed();
        let mut n = closed;
        for q in closed..self.tenants.len() {
            n = self.needed(q, n);
        }
        n
    }

    // The oldest that is kept is dropped.
    fn drop_oldest(&mut self, unasked: usize)
        requires dropped { IsDropped self.old.tenants.items unasked self.old.settled.upto }
        requires more { self.old.tenants.from < unasked }
        ensures items { self.new.tenants.items ≡ self.old.tenants.items }
        ensures from { self.new.tenants.from ≡ self.old.tenants.from + 1 }
        ensures settled { self.new.settled ≡ self.old.settled }
        ensures program { self.new.program ≡ self.old.program }
        ensures sizes { sizes_of self.new ≡ sizes_of self.old }
    {
        self.tenants.drop_first();
    }

    // The oldest that nothing asks for are dropped.
    fn drop_unasked(&mut self)
        ensures items { self.new.tenants.items ≡ self.old.tenants.items }
        ensures program { self.new.program ≡ self.old.program }
        ensures sizes { sizes_of self.new ≡ sizes_of self.old }
    {
        let unasked = self.unasked();
        for _q in self.tenants.first()..unasked {
            self.drop_oldest(unasked);
        }
    }

    // The counts of stations to which the path does not come back are dropped.
    fn drop_uses(&mut self)
        ensures items { self.new.tenants.items ≡ self.old.tenants.items }
        ensures program { self.new.program ≡ self.old.program }
        ensures sizes { sizes_of self.new ≡ sizes_of self.old }
    {
        if self.ring < STATIONS {
            return;
        }
        for _station in self.uses.first()..self.settled.path {
            self.uses.drop_first();
        }
    }

    /// The oldest that nothing asks for are dropped, once they are as many as those that stay.
    pub(crate) fn forget(&mut self)
        ensures items { self.new.tenants.items ≡ self.old.tenants.items }
        ensures program { self.new.program ≡ self.old.program }
        ensures sizes { sizes_of self.new ≡ sizes_of self.old }
    {
        let left = self.settled.upto - self.tenants.first();
        let others = self.tenants.len() - self.settled.upto;
        if left < LEAST || left < others {
            return;
        }
        self.drop_unasked();
        self.drop_uses();
    }
}
