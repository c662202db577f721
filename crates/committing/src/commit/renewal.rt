//! Renewal of the core: the back leaves the old one and enters another.
ghost use Rattle.std.specs.Prelude.{◌≡◌, IfNone, IfSome, None, Some};
ghost use Rattle.committing.specs.Committing.{AreRenewedWithBack};
ghost use Rattle.inorder.specs.History.{unit_of};
ghost use Rattle.station.specs.Renewals.{HasNobody};

use super::Committer;
use crate::ends::Refusal;
use back::{OfProgram, a_back_enters_behind_a_renewal};
use core::mem::replace_with;
use counts::Total;
use hints::Ring;
use station::{Core, FrontSeat, UnitSeat};
use std::alloc::Global;
use workers::{Bounds, RunState};

impl<K: OfProgram + Bounds + Ring> Committer<K> {
    // Renews the core of a commit side that is owned. Without memory core and seats are lost, and the back is at the
    // old core again.
    fn renewed(
        self,
        parts: (Global, &RunState<K>, Core, FrontSeat, UnitSeat),
    ) -> (Self, Option<(Core, FrontSeat, UnitSeat)>)
        requires core { self.back.core ≡ parts.2 }
        requires going { self.back.ended ≡ None }
        requires front { parts.3.core ≡ parts.2 }
        requires nobody { HasNobody (unit_of parts.2.program parts.2.sizes parts.3.seen) }
        requires unit { parts.4.core ≡ parts.2 }
        ensures turns { result.0.turns ≡ self.turns }
        ensures begins { IfSome result.1 (λ t. result.0.wanting ≡ Some Refusal.Thread) }
        ensures refused { IfNone result.1 (result.0.wanting ≡ Some Refusal.Memory) }
        ensures goes_on { IfSome result.1 (λ t.
            AreRenewedWithBack parts.entry.2 parts.entry.3 parts.entry.4 t.0 t.1 t.2 result.0.back.core) }
    {
        a_back_enters_behind_a_renewal();
        let Committer {
            back,
            mut count,
            limit,
            turns,
            wanting: _,
        } = self;
        let (alloc, state, core, front, unit) = parts;
        let (seat, still) = back.leave();
        let (back, wanting, now) = match core.renew(alloc, front, seat, unit) {
            Ok((core, front, seat, unit)) => {
                state.counts.add(&mut count, Total::Renewals, 1);
                (
                    still.enter(seat),
                    Refusal::Thread,
                    Some((core, front, unit)),
                )
            }
            Err(refused) => {
                drop(refused.1);
                (still.enter_again(refused.3), Refusal::Memory, None)
            }
        };
        let committer = Committer {
            back,
            count,
            limit,
            turns,
            wanting: Some(wanting),
        };
        (committer, now)
    }

    /// Another core, whose tags begin again, where there is memory for it, with the front's seat and a unit's there. The
    /// back leaves the old core and enters the other one, and goes on with the turns that are left. Without memory it
    /// enters the old core again.
    pub fn renew(
        &mut self,
        alloc: Global,
        state: &RunState<K>,
        core: Core,
        front: FrontSeat,
        unit: UnitSeat,
    ) -> Option<(Core, FrontSeat, UnitSeat)>
        requires core { self.old.back.core ≡ core }
        requires going { self.old.back.ended ≡ None }
        requires front { front.core ≡ core }
        requires nobody { HasNobody (unit_of core.program core.sizes front.seen) }
        requires unit { unit.core ≡ core }
        ensures turns { self.new.turns ≡ self.old.turns }
        ensures begins { IfSome result (λ t. self.new.wanting ≡ Some Refusal.Thread) }
        ensures refused { IfNone result (self.new.wanting ≡ Some Refusal.Memory) }
        ensures goes_on { IfSome result (λ t.
            AreRenewedWithBack core front unit t.0 t.1 t.2 self.new.back.core) }
    {
        replace_with(self, (alloc, state, core, front, unit), Self::renewed)
    }
}
