//! Who is in flight before and after a tenant.
ghost use Rattle.std.specs.Prelude.{◌≡◌, ◌<◌, ◌≤◌, ℕ, IfSome, IfNone, IsTrue, IsFalse, length};
ghost use Rattle.instructions.specs.declared.stop.Stop.{Stop};
ghost use Rattle.replay.specs.Reasons.{held, IsHeldLive, IsHeldMiss, IsHeldStop, IsHeldUnaddressed};

use crate::tenant::{Fate, Standing, Tenant};
use crate::unit::Unit;
use instructions::{Kind, Stop};

fn is_live(tenant: Option<Tenant>) -> bool
    ensures yes { IsTrue result → IsHeldLive tenant }
    ensures no { IsHeldLive tenant → IsTrue result }
{
    match tenant {
        Some(tenant) => matches!(tenant.standing, Standing::Live),
        None => false,
    }
}

fn is_miss(tenant: Option<Tenant>) -> bool
    ensures yes { IsTrue result → IsHeldMiss tenant }
    ensures no { IsHeldMiss tenant → IsTrue result }
{
    match tenant {
        Some(tenant) => {
            matches!(tenant.standing, Standing::Live) && matches!(tenant.fate, Fate::Miss(_))
        }
        None => false,
    }
}

fn stop_of(tenant: Option<Tenant>) -> Option<Stop>
    ensures some { IfSome result (IsHeldStop tenant) }
    ensures none { IfNone result ((c : Stop) → ¬ IsHeldStop tenant c) }
{
    let tenant = tenant?;
    match (tenant.standing, tenant.fate) {
        (Standing::Retired, Fate::Stops(code)) => Some(code),
        _ => None,
    }
}

impl<'a> Unit<'a> {
    /// The oldest in flight after a position.
    pub fn live_behind(&self, who: usize) -> Option<usize>
        requires { who < length self.now.tenants.items }
        ensures some { IfSome result (λ q. IsHeldLive (held self.now.tenants.items q)) }
        ensures behind { IfSome result (λ q. who < q) }
        ensures none { IfNone result
            ((q : ℕ) → who < q → ¬ IsHeldLive (held self.now.tenants.items q)) }
    {
        for q in self.settled.upto..self.tenants.len() {
            if who < q && is_live(self.kept(q)) {
                return Some(q);
            }
        }
        None
    }

    /// The oldest in flight before a position.
    pub fn live_before(&self, who: usize) -> Option<usize>
        ensures some { IfSome result (λ q. IsHeldLive (held self.now.tenants.items q)) }
        ensures before { IfSome result (λ q. q < who) }
        ensures none { IfNone result
            ((q : ℕ) → q < who → ¬ IsHeldLive (held self.now.tenants.items q)) }
    {
        for q in self.settled.upto..who {
            if is_live(self.kept(q)) {
                return Some(q);
            }
        }
        None
    }

    /// The oldest misprediction in flight before a position.
    pub fn miss_before(&self, who: usize) -> Option<usize>
        ensures some { IfSome result (λ q. IsHeldMiss (held self.now.tenants.items q)) }
        ensures before { IfSome result (λ q. q < who) }
        ensures none { IfNone result
            ((q : ℕ) → q < who → ¬ IsHeldMiss (held self.now.tenants.items q)) }
    {
        for q in self.settled.upto..who {
            if is_miss(self.kept(q)) {
                return Some(q);
            }
        }
        None
    }

    /// The oldest store in flight before a position that has no address.
    pub fn unaddressed_before(&self, who: usize) -> Option<usize>
        ensures some { IfSome result
            (λ q. IsHeldUnaddressed self.now.program.now (held self.now.tenants.items q)) }
        ensures before { IfSome result (λ q. q < who) }
        ensures none { IfNone result ((q : ℕ) → q < who →
            ¬ IsHeldUnaddressed self.now.program.now (held self.now.tenants.items q)) }
    {
        for q in self.settled.upto..who {
            if self.is_unaddressed(self.kept(q)) {
                return Some(q);
            }
        }
        None
    }

    // A store in flight without an address.
    fn is_unaddressed(&self, tenant: Option<Tenant>) -> bool
        ensures yes { IsTrue result → IsHeldUnaddressed self.now.program.now tenant }
        ensures no { IsHeldUnaddressed self.now.program.now tenant → IsTrue result }
    {
        match tenant {
            Some(tenant) => {
                matches!(tenant.standing, Standing::Live)
                    && matches!(self.kind(&tenant), Kind::Stores)
                    && !matches!(tenant.fate, Fate::Addr(_))
            }
            None => false,
        }
    }

    /// The oldest stop that has retired before a position.
    pub fn stop_before(&self, who: usize) -> Option<(usize, Stop)>
        ensures some { IfSome result (λ s. IsHeldStop (held self.now.tenants.items s.0) s.1) }
        ensures before { IfSome result (λ s. s.0 < who) }
        ensures none { IfNone result
            ((q : ℕ) (c : Stop) → q < who → ¬ IsHeldStop (held self.now.tenants.items q) c) }
    {
        for q in self.settled.upto..who {
            if let Some(code) = stop_of(self.kept(q)) {
                return Some((q, code));
            }
        }
        None
    }
}
