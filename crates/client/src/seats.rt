//! All seats of a core, in one hand.
ghost use Rattle.std.specs.Prelude.{IfOk};
ghost use Rattle.inorder.specs.Callers.{GoesOn};
ghost use Rattle.inorder.specs.History.{unit_of};
ghost use Rattle.station.specs.Renewals.{HasNobody};
ghost use Rattle.client.specs.ByHand.{AreAll, AreNew, AreSeatsRenewed, HaveHeard};

use instructions::{Config, Memory, Program};
use station::{
    BackSeat, Core, FrontSeat, UnitSeat, a_renewal_goes_on, no_seat_no_entry,
    numbers_are_given_once,
};
use std::alloc::Global;

/// The front's seat, the back's, and those of two units. Who has them all is alone with the core.
#[derive(Drop)]
pub struct Seats {
    pub front: FrontSeat,
    pub back: BackSeat,
    pub one: UnitSeat,
    pub other: UnitSeat,
}

/// A core, and all its seats. The second unit is another one, and has done nothing.
pub fn make(alloc: Global, program: &Program, config: &Config) -> Result<(Core, Seats), Memory>
    ensures { IfOk result (λ made. AreNew program.now config.now made.0 made.1) }
{
    let (core, front, back, unit) = Core::make(alloc, program, config)?;
    numbers_are_given_once();
    let (one, other) = core.split(unit);
    let seats = Seats {
        front,
        back,
        one,
        other,
    };
    Ok((core, seats))
}

/// The first unit meets all others: it has then seen what they had, and they what it had.
pub fn gather(core: &Core, seats: &mut Seats)
    requires { AreAll core.now seats.old }
    ensures all { AreAll core.now seats.new }
    ensures met { HaveHeard core.now seats.old seats.new }
{
    core.meet(&mut seats.front, &mut seats.one);
    core.meet(&mut seats.back, &mut seats.one);
    core.meet(&mut seats.other, &mut seats.one);
    no_seat_no_entry(&seats.one);
    no_seat_no_entry(&seats.other);
}

/// Renews the core, where nobody is live and no stop has retired. The second unit's seat is cut anew.
pub fn renew_all(alloc: Global, core: Core, seats: Seats) -> Result<(Core, Seats), Memory>
    requires all { AreAll core seats }
    requires nobody { HasNobody (unit_of core.program core.sizes seats.front.seen) }
    requires goes_on { GoesOn (unit_of core.program core.sizes seats.back.seen) }
    ensures { IfOk result (λ made. AreSeatsRenewed core seats made.0 made.1) }
{
    numbers_are_given_once();
    a_renewal_goes_on();
    let Seats {
        front,
        back,
        one,
        other,
    } = seats;
    let _other: UnitSeat = other;
    match core.renew(alloc, front, back, one) {
        Ok((renewed, front, back, unit)) => {
            let (one, other) = renewed.split(unit);
            let seats = Seats {
                front,
                back,
                one,
                other,
            };
            Ok((renewed, seats))
        }
        Err(refused) => Err(refused.0),
    }
}
