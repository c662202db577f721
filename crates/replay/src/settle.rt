//! Tenants settle once none before them is in flight.
ghost use Rattle.std.specs.Prelude.{◌≡◌, ◌<◌, ◌≤◌, ◌+◌, ◌^◌, IfSome, IsTrue, Some, length, slice_get};
ghost use Rattle.replay.specs.Lets.{sizes_of};
ghost use Rattle.replay.specs.Reasons.{HasLeft};
ghost use Rattle.replay.specs.Settlement.{LacksData};
ghost use Rattle.replay.specs.Shown.{store_of};

use crate::front::Front;
use crate::tenant::{Fate, Standing, Store, Tenant};
use crate::unit::Unit;

// What a tenant stores has its data, and fits into memory.
fn is_whole(stored: Option<Store>, size: usize) -> bool
    ensures inside { IsTrue result → IfSome stored (λ s. s.at + s.width ≤ size) }
    ensures whole { IsTrue result → ¬ LacksData (store_of stored) }
{
    match stored {
        Some(store) => {
            store.content.is_some() && store.at as usize + store.width as usize <= size
        }
        None => true,
    }
}

// What a tenant has written into its register; 0 where it writes none.
fn written(register: usize, made: Option<u32>) -> Option<u32>
    ensures { IfSome result (λ v. 0 < register → made ≡ Some v) }
{
    if register == 0 { Some(0) } else { made }
}

impl<'a> Unit<'a> {
    // Settles the oldest tenant that is not settled, which has retired; whether it could.
    fn settle_retired(&mut self, tenant: &Tenant) -> bool
        requires is { slice_get self.old.tenants.items self.old.settled.upto ≡ Some tenant.now }
        requires small { self.old.settled.upto < 2 ^ 62 }
        requires retired { HasLeft tenant.now.standing }
        ensures tenants { self.new.tenants ≡ self.old.tenants }
        ensures program { self.new.program ≡ self.old.program }
        ensures sizes { sizes_of self.new ≡ sizes_of self.old }
    {
        match tenant.fate {
            Fate::Stops(_) => return false,
            _ => {}
        }
        let stored = self.stored(tenant);
        if !is_whole(stored, self.settled.memory.len()) {
            return false;
        }
        let register = self.instr(tenant).destination(tenant.half).number() as usize;
        let Some(value) = written(register, tenant.made) else {
            return false;
        };
        let half = self.half_behind(tenant);
        let front = Front {
            pc: tenant.next,
            half,
        };
        self.settled.advance(front, register, value, stored);
        true
    }

    // Settles the oldest tenant that is not settled, if it has left; whether it could.
    fn settle_next(&mut self) -> bool
        ensures tenants { self.new.tenants ≡ self.old.tenants }
        ensures program { self.new.program ≡ self.old.program }
        ensures sizes { sizes_of self.new ≡ sizes_of self.old }
    {
        let Some(tenant) = self.kept(self.settled.upto) else {
            return false;
        };
        match tenant.standing {
            Standing::Live => false,
            Standing::Retired => self.settle_retired(&tenant),
            Standing::Squashed => {
                self.settled.skip();
                true
            }
        }
    }

    /// Settles the oldest tenants that have left.
    pub(crate) fn settle(&mut self)
        ensures tenants { self.new.tenants ≡ self.old.tenants }
        ensures program { self.new.program ≡ self.old.program }
        ensures sizes { sizes_of self.new ≡ sizes_of self.old }
    {
        for _q in self.settled.upto..self.tenants.len() {
            if !self.settle_next() {
                return;
            }
        }
    }
}
