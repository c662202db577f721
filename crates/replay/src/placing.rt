//! Links and deliveries, which no log names: each is made as soon as it is due.
ghost use Rattle.std.specs.Prelude.{◌≡◌, IsTrue};
ghost use Rattle.replay.specs.Lets.{sizes_of, unit_of};
ghost use Rattle.replay.specs.Placing.{AreDueFrom, AreDueTo, Delivers, HasNothingDue, IsDelivery, IsQuiet, LeadsSilently, LeavesDue, Supplies, SuppliesBoth, Tries, may_make as may_make_by};
ghost use Rattle.replay.specs.Reasons.{act_of};
ghost use Rattle.replay.specs.Shown.{shown};

use crate::acting::Deed;
use crate::unit::Unit;
use crate::wakeup::{is_nothing, operand};
use inorder::history::Source;

// By this a tenant may make a value.
fn may_make(deed: Deed) -> bool
    ensures { result ≡ may_make_by (act_of deed) }
{
    match deed {
        Deed::Finish | Deed::Load | Deed::Guess(_) | Deed::Retire => true,
        _ => false,
    }
}

impl<'a> Unit<'a> {
    // Does it to the tenant at a position, if it is allowed.
    fn act_if_allowed(&mut self, who: usize, deed: Deed)
        ensures { Tries self.old who (act_of deed) self.new }
    {
        match self.act(who, deed) {
            Ok(()) => {}
            Err(_) => {}
        }
    }

    // Links and delivers source k of the tenant at a position, where that is due.
    fn supply_source(&mut self, who: usize, k: Source)
        ensures { Supplies self.old who k self.new }
    {
        self.act_if_allowed(who, Deed::Link(k));
        self.act_if_allowed(who, Deed::Deliver(k));
    }

    // Links and delivers both sources of the tenant at a position, where that is due.
    fn supply_both(&mut self, who: usize)
        ensures { SuppliesBoth self.old who self.new }
    {
        self.supply_source(who, Source::First);
        self.supply_source(who, Source::Second);
    }

    /// Makes each link and each delivery that is due.
    pub fn supply_all(&mut self)
        ensures leads { LeadsSilently self.old self.new }
        ensures quiet { HasNothingDue self.new.program.now (sizes_of self.new) (unit_of self.new) }
    {
        for q in self.tenants.first()..self.tenants.len() {
            self.supply_both(q);
        }
    }

    /// Links the sources of a new tenant, and delivers what their producers have made.
    pub fn link_new(&mut self, who: usize)
        ensures leads { LeadsSilently self.old self.new }
        ensures quiet { AreDueTo self.old.program.now (shown self.old.tenants.items) who →
            IsQuiet self.new }
    {
        self.supply_both(who);
    }

    // Source k of the tenant at a position waits for what a producer has made.
    fn waits_for(&self, who: usize, k: Source, producer: usize) -> bool
        ensures { IsDelivery self.now.program.now (shown self.now.tenants.items) producer who k →
            IsTrue result }
    {
        let Some(tenant) = self.tenant(who) else {
            return false;
        };
        let source = operand(&tenant, k);
        source.creator == Some(producer) && is_nothing(source.value)
    }

    // Delivers what a producer has made to source k of a consumer, where it waits for that.
    fn deliver_from(&mut self, producer: usize, consumer: usize, k: Source)
        ensures { Delivers self.old producer consumer k self.new }
    {
        if self.waits_for(consumer, k, producer) {
            self.act_if_allowed(consumer, Deed::Deliver(k));
        }
    }

    /// Delivers what a tenant has made to each source that waits for it.
    pub fn broadcast(&mut self, who: usize)
        ensures leads { LeadsSilently self.old self.new }
        ensures quiet { AreDueFrom self.old.program.now (shown self.old.tenants.items) who →
            IsQuiet self.new }
    {
        for q in who..self.tenants.len() {
            self.deliver_from(who, q, Source::First);
            self.deliver_from(who, q, Source::Second);
        }
    }

    /// Delivers what a tenant has made by what was done to it, if it may have made a value.
    pub fn deliver_after(&mut self, who: usize, deed: Deed)
        ensures leads { LeadsSilently self.old self.new }
        ensures quiet { LeavesDue (may_make_by (act_of deed)) self.old.program.now
            (shown self.old.tenants.items) who → IsQuiet self.new }
    {
        if may_make(deed) {
            self.broadcast(who);
        }
    }
}
