//! What an event says of producers and values.
ghost use Rattle.std.specs.Prelude.{◌≡◌, ◌≤◌, IfErr, IfSome, OnOk, Some, None, [], slice_get};
ghost use Rattle.inorder.specs.Tenants.{kind_of};
ghost use Rattle.replay.specs.Shown.{tenant_of};
ghost use Rattle.events.specs.Denied.{DeniesOutcome, DeniesProducer, DeniesValue, IsUnknown};
ghost use Rattle.events.specs.Told.{ComesFrom, HasLeft, HasOutcome, IsOfState, IsOfValues, IsTrueOf, LeftIs, Refuses, left_by, outcome_of};

use crate::judge::Judge;
use crate::why::Why;
use instructions::Kind;
use replay::{Fate, Tenant};

// What the execution of a tenant has ended with: its result, next pc or address.
pub(crate) fn outcome_value(tenant: &Tenant) -> Option<u32>
    ensures { result ≡ outcome_of tenant.now.fate }
{
    match tenant.fate {
        Fate::Done(v) | Fate::Miss(v) | Fate::Addr(v) | Fate::Guessed(v) => Some(v),
        _ => None,
    }
}

// A value that is said is the one that there is.
pub(crate) fn is_value(who: usize, is: Option<u32>, said: Option<u32>) -> Result<(), Why>
    ensures ok { OnOk result (IfSome said (λ v. is ≡ Some v)) }
    ensures err { IfErr result (IsOfValues) }
    ensures denied { IfErr result (DeniesValue (λ p. p ≡ who) (λ p there. there ≡ is) said) }
{
    match (said, is) {
        (None, _) => Ok(()),
        (Some(_), None) => Err(Why::NoValue(who)),
        (Some(said), Some(is)) if said == is => Ok(()),
        (Some(_), Some(is)) => Err(Why::OtherValue(who, is)),
    }
}

impl<'a> Judge<'a> {
    /// Why nothing is known of a position: nobody was let there, or who was let there is dropped.
    pub(crate) fn unknown(&self, who: usize) -> Why
        requires { self.now.unit.tenants.from ≤ who → slice_get self.now.unit.tenants.items who ≡ None }
        ensures holds { IsTrueOf self.now.unit result }
        ensures of { IsOfState result }
        ensures named { IsUnknown who result }
    {
        if who < self.unit.tenants.first() {
            Why::Gone(who)
        } else {
            Why::NotLet(who)
        }
    }

    // What a tenant leaves as it retires: the data of a store, or what it has made.
    fn left_value(&self, tenant: &Tenant) -> Option<u32>
        ensures { result ≡ left_by (kind_of self.now.unit.program.now (tenant_of tenant.now)) tenant.now.second.value tenant.now.made }
    {
        match self.unit.kind(tenant) {
            Kind::Stores => tenant.second.value,
            _ => tenant.made,
        }
    }

    // The outcome of the tenant at a position is what is said.
    pub(crate) fn has_outcome(&self, who: usize, said: Option<u32>) -> Result<(), Why>
        ensures ok { OnOk result (IfSome said (HasOutcome self.now.unit.tenants.items who)) }
        ensures err { IfErr result (λ why. IsOfState why × IsTrueOf self.now.unit why) }
        ensures denied { IfErr result (DeniesOutcome self.now.unit.tenants.items who said) }
    {
        match self.unit.tenant(who) {
            Some(tenant) => is_value(who, outcome_value(&tenant), said),
            None => Err(self.unknown(who)),
        }
    }

    /// What the tenant at a position has left as it retired is what is said.
    pub(crate) fn has_left(&self, who: usize, said: Option<u32>) -> Result<(), Why>
        ensures ok { OnOk result (IfSome said (HasLeft self.now.unit who)) }
        ensures err { IfErr result (λ why. IsOfState why × IsTrueOf self.now.unit why) }
        ensures denied { IfErr result (DeniesValue (λ p. p ≡ who) (LeftIs self.now.unit) said) }
    {
        match self.unit.tenant(who) {
            Some(tenant) => is_value(who, self.left_value(&tenant), said),
            None => Err(self.unknown(who)),
        }
    }

    /// One of its sources comes from this producer.
    pub(crate) fn comes_from(&self, who: usize, producer: usize) -> Result<(), Why>
        ensures ok { OnOk result (ComesFrom self.now.unit.tenants.items who producer) }
        ensures err { IfErr result (λ why. Refuses self.now.unit (λ ss. ss ≡ []) why self.now.unit) }
        ensures denied { IfErr result (DeniesProducer who producer) }
    {
        let Some(tenant) = self.unit.tenant(who) else {
            return Err(self.unknown(who));
        };
        let (first, second) = (tenant.first.creator, tenant.second.creator);
        if first == Some(producer) || second == Some(producer) {
            return Ok(());
        }
        Err(Why::OtherProducer(who, first, second))
    }
}
