//! How a new tenant is given its sources.
ghost use Rattle.std.specs.Prelude.{◌≡◌, ◌<◌, ◌≤◌, ◌^◌, ℕ, IfSome, IfNone, IsTrue, length};
ghost use Rattle.inorder.specs.Steps.{MayComeFrom, MaySupply, let_operand as let_operand_by};
ghost use Rattle.inorder.specs.Unit.{creator as creator_by, value_of};
ghost use Rattle.replay.specs.Dropping.{ComesLate, IsLate};
ghost use Rattle.replay.specs.Lets.{HasNoSupply, supply_of, unit_of};
ghost use Rattle.replay.specs.Reasons.{IsHeldAt, held};
ghost use Rattle.replay.specs.Shown.{operand_of, shown};

use crate::tenant::{Operand, Tenant, Way};
use crate::unit::Unit;
use instructions::{Kind, Reg};

/// How a source is supplied: its value is known, or comes from its creator.
#[derive(Clone, Copy)]
pub enum Supplied {
    Known(u32),
    From,
}

/// How both sources are supplied.
#[derive(Clone, Copy)]
pub struct Supplies {
    pub first: Supplied,
    pub second: Supplied,
}

/// A source of a new tenant.
pub(crate) fn let_operand(creator: Option<usize>, supplied: Supplied) -> Operand
    ensures { operand_of result ≡ let_operand_by creator (supply_of supplied) }
{
    match supplied {
        Supplied::Known(v) => Operand {
            creator,
            way: Way::AtLet,
            value: Some(v),
        },
        Supplied::From => Operand {
            creator,
            way: Way::Unlinked,
            value: None,
        },
    }
}

fn has_station(tenant: Option<Tenant>, station: usize) -> bool
    ensures yes { IsTrue result → IsHeldAt station tenant }
    ensures no { IsHeldAt station tenant → IsTrue result }
{
    match tenant {
        Some(tenant) => tenant.station == station,
        None => false,
    }
}

impl<'a> Unit<'a> {
    // What who makes the newest value of a register has made; 0 where there is none.
    fn value(&self, r: Reg, creator: Option<usize>) -> Option<u32>
        requires { creator ≡ creator_by self.now.program.now (shown self.now.tenants.items) r }
        ensures is { result ≡ value_of (shown self.now.tenants.items) creator }
        ensures late { IfNone result (IsLate self.now.settled.upto creator) }
    {
        match creator {
            None => Some(0),
            Some(q) if q < self.settled.upto => Some(self.settled.registers[r.number() as usize]),
            Some(q) => match self.kept(q) {
                Some(tenant) => tenant.made,
                None => None,
            },
        }
    }

    // Somebody after a position has this station.
    fn is_let_again(&self, who: usize, station: usize) -> Option<usize>
        requires there { who < length self.now.tenants.items }
        requires kept { self.now.tenants.from ≤ who }
        ensures some { IfSome result (λ q. IsHeldAt station (held self.now.tenants.items q)) }
        ensures behind { IfSome result (λ q. who < q) }
        ensures none { IfNone result
            ((q : ℕ) → who < q → ¬ IsHeldAt station (held self.now.tenants.items q)) }
    {
        let n = self.tenants.len();
        for q in who + 1..n {
            if has_station(self.kept(q), station) {
                return Some(q);
            }
        }
        None
    }

    // A source may come from its creator, where the new tenant has this station.
    fn may_come_from(&self, creator: Option<usize>, station: usize) -> bool
        requires { IsLate self.now.settled.upto creator }
        ensures yes { IsTrue result →
            MayComeFrom self.now.program.now (unit_of self.now) station creator }
        ensures no { MayComeFrom self.now.program.now (unit_of self.now) station creator →
            IsTrue result }
    {
        let Some(q) = creator else {
            return false;
        };
        let Some(tenant) = self.kept(q) else {
            return false;
        };
        match self.kind(&tenant) {
            Kind::Links => return false,
            _ => {}
        }
        if tenant.station == station {
            return false;
        }
        match self.is_let_again(q, tenant.station) {
            Some(_) => false,
            None => true,
        }
    }

    /// How a source may be supplied that reads a register.
    pub(crate) fn supply(&self, r: Reg, station: usize) -> Option<Supplied>
        ensures some { IfSome result (λ s. MaySupply self.now.program.now (unit_of self.now) station
            (creator_by self.now.program.now (shown self.now.tenants.items) r) (supply_of s)) }
        ensures late { IfSome result (ComesLate self.now.settled.upto
            (creator_by self.now.program.now (shown self.now.tenants.items) r)) }
        ensures none { IfNone result (HasNoSupply self.now.program.now (unit_of self.now) station
            (creator_by self.now.program.now (shown self.now.tenants.items) r)) }
    {
        let creator = self.creator(r);
        match self.value(r, creator) {
            Some(v) => Some(Supplied::Known(v)),
            None => {
                if self.may_come_from(creator, station) {
                    Some(Supplied::From)
                } else {
                    None
                }
            }
        }
    }
}
