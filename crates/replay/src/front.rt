//! Where the path goes on, and the create vector.
ghost use Rattle.std.specs.Prelude.{◌≡◌, ◌<◌, ◌≤◌, ◌^◌, Some, cond, length};
ghost use Rattle.inorder.specs.Tenants.{destination_of, is_first, on_path};
ghost use Rattle.inorder.specs.Unit.{creator as creator_by, half_after, last_writer};
ghost use Rattle.replay.specs.Fronts.{front_of, writes};
ghost use Rattle.replay.specs.Shown.{shown, tenant_of};

use crate::tenant::{Standing, Tenant};
use crate::unit::Unit;
use instructions::{Half, Reg};

/// Where the path goes on, and the half that comes there.
#[derive(Clone, Copy)]
pub struct Front {
    pub pc: u32,
    pub half: Half,
}

fn is_on_path(tenant: &Tenant) -> bool
    ensures { result ≡ on_path (tenant_of tenant.now) }
{
    !matches!(tenant.standing, Standing::Squashed)
}

impl<'a> Unit<'a> {
    /// The half that comes after a tenant.
    pub(crate) fn half_behind(&self, tenant: &Tenant) -> Half
        ensures { result ≡ half_after (is_first self.now.program.now (tenant_of tenant.now)) }
    {
        if self.instr(tenant).is_first_half(tenant.half) {
            Half::High
        } else {
            Half::Low
        }
    }

    /// Where the path goes on.
    pub fn front(&self) -> Front
        ensures { result ≡ front_of self.now.program.now (shown self.now.tenants.items) }
    {
        let n = self.tenants.len();
        for back in 0..n - self.settled.upto {
            let tenant = self.there(n - 1 - back);
            if is_on_path(tenant) {
                return Front {
                    pc: tenant.next,
                    half: self.half_behind(tenant),
                };
            }
        }
        self.settled.front
    }

    fn writes(&self, tenant: &Tenant, r: Reg) -> bool
        ensures { result ≡ writes self.now.program.now r (tenant_of tenant.now) }
    {
        is_on_path(tenant) && self.instr(tenant).destination(tenant.half).number() == r.number()
    }

    // The last tenant of the path that writes a register.
    fn last_writer(&self, r: Reg) -> Option<usize>
        ensures { result ≡ last_writer self.now.program.now (shown self.now.tenants.items) r }
    {
        let n = self.tenants.len();
        for back in 0..n - self.settled.upto {
            let q = n - 1 - back;
            if self.writes(self.there(q), r) {
                return Some(q);
            }
        }
        self.settled.writers[r.number() as usize]
    }

    /// Who makes the newest value of a register.
    pub(crate) fn creator(&self, r: Reg) -> Option<usize>
        ensures { result ≡ creator_by self.now.program.now (shown self.now.tenants.items) r }
    {
        if r.number() == 0 {
            None
        } else {
            self.last_writer(r)
        }
    }
}
