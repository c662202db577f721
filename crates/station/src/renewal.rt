//! Renewal of spent tags.
ghost use Rattle.std.specs.Prelude.{◌≡◌, IfErr, IfOk};
ghost use Rattle.inorder.specs.Callers.{GoesOn};
ghost use Rattle.inorder.specs.History.{unit_of};
ghost use Rattle.station.specs.Renewals.{HasNobody, HaveMet, HaveSeen, IsNotRenewed, IsRenewed, seats_of};

use crate::cores::{Core, first_table};
use crate::laws::a_number_is_of_its_part;
use crate::seat::{BackSeat, FrontSeat, SeatOf, UnitSeat};
use instructions::Memory;
use std::alloc::Global;

impl Core {
    // The three seats meet: what any of them had seen, each has seen then.
    fn gather(&self, front: &mut FrontSeat, back: &mut BackSeat, unit: &mut UnitSeat)
        requires front { front.old.core ≡ self.now }
        requires back { back.old.core ≡ self.now }
        requires unit { unit.old.core ≡ self.now }
        ensures met { HaveMet self.now (seats_of front.old back.old unit.old)
            (seats_of front.new back.new unit.new) }
        ensures seen { HaveSeen self.now (seats_of front.old back.old unit.old) front.new.seen }
    {
        a_number_is_of_its_part(front);
        a_number_is_of_its_part(back);
        self.tell(back, front);
        self.tell(unit, front);
        self.tell(front, back);
        self.tell(front, unit);
    }

    /// Another core for the same program, of the same sizes, whose stations begin again with the first
    /// tag. Its seats are new: the front's, the back's, and that of the first unit. They have seen what
    /// the three old ones had, once these have met, and the renewal after it. Seats of the old core are
    /// of no use any more, and no job of before is held.
    /// Call `renew` once all tags of a station are spent, where the front has seen that nobody is live
    /// and the back has retired no stop.
    /// Where there is no memory for the new words, core and seats come back. The seats have met then.
    pub fn renew(
        self,
        alloc: Global,
        mut front: FrontSeat,
        mut back: BackSeat,
        mut unit: UnitSeat,
    ) -> Result<
        (Core, FrontSeat, BackSeat, UnitSeat),
        (Memory, Core, FrontSeat, BackSeat, UnitSeat),
    >
        requires front { front.core ≡ self }
        requires back { back.core ≡ self }
        requires unit { unit.core ≡ self }
        requires nobody { HasNobody (unit_of self.program self.sizes front.seen) }
        requires goes_on { GoesOn (unit_of self.program self.sizes back.seen) }
        ensures ok { IfOk result
            (λ t. IsRenewed self (seats_of front back unit) t.0 (seats_of t.1 t.2 t.3)) }
        ensures err { IfErr result
            (λ t. IsNotRenewed self (seats_of front back unit) t.1 (seats_of t.2 t.3 t.4)) }
    {
        self.gather(&mut front, &mut back, &mut unit);
        let SeatOf {
            seat,
            words,
            station,
            over,
            woken,
            part,
        } = front;
        let (table, setup) = self.apart(seat.into_badge());
        match first_table(alloc, &setup) {
            Ok((new, first)) => Ok(Core::deal(new, first, setup)),
            Err(memory) => {
                let (core, opening) = Core::of(table, setup);
                let front = SeatOf {
                    seat: opening.into_seat(),
                    words,
                    station,
                    over,
                    woken,
                    part,
                };
                Err((memory, core, front, back, unit))
            }
        }
    }
}
