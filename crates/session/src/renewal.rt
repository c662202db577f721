//! A core that is renewed, with all that stands at it.
ghost use Rattle.std.specs.Prelude.{◌≡◌, IfErr, IfOk, None, true};
ghost use Rattle.session.specs.Renewals.{SeatsAreAt, HasBegunAgain, HasStayed};

use back::{Back, OfProgram, a_back_enters_behind_a_renewal};
use front::{Front, a_front_enters_behind_a_renewal};
use instructions::{Predictor, Program};
use station::{Core, UnitSeat, a_number_is_of_its_part};
use std::alloc::Global;

/// A core, the seat that has seen all, the front and the back.
pub(crate) type Stage<'a, P, J> = (Core, UnitSeat, Front<'a, P>, Back<J>);

/// Another core with first tags, at which all of them go on. Where there is no memory for it they stay at the old
/// one, and the front has not rested any more.
pub(crate) fn renew<'a, P: Predictor + Drop, J: OfProgram>(
    alloc: Global,
    program: &'a Program,
    core: Core,
    all: UnitSeat,
    front: Front<'a, P>,
    back: Back<J>,
) -> Result<Stage<'a, P, J>, Stage<'a, P, J>>
    requires program { program.now ≡ core.program }
    requires stage { SeatsAreAt core all front.core back }
    requires rested { front.rested ≡ true }
    requires not_ended { back.ended ≡ None }
    ensures ok { IfOk result (λ t. SeatsAreAt t.0 t.1 t.2.core t.3) }
    ensures renewed { IfOk result (λ t. HasBegunAgain core t.0 all.seen
        t.1.seen back t.3 t.2.trained_upto) }
    ensures touched { IfOk result (λ t. t.2.touched ≡ front.entry.touched) }
    ensures err { IfErr result (λ t. SeatsAreAt t.0 t.1 t.2.core t.3) }
    ensures refused { IfErr result (λ t. HasStayed core t.0 all.seen t.1.seen back t.3) }
    ensures untouched { IfErr result (λ t. t.2.touched ≡ front.entry.touched) }
{
    a_front_enters_behind_a_renewal();
    a_back_enters_behind_a_renewal();
    let (front_seat, front_still) = front.leave();
    let (back_seat, back_still) = back.leave();
    match core.renew(alloc, front_seat, back_seat, all) {
        Ok((core, front_seat, back_seat, all)) => {
            let front = front_still.enter(front_seat, program);
            let back = back_still.enter(back_seat);
            Ok((core, all, front, back))
        }
        Err((_, core, front_seat, back_seat, all)) => {
            let front = front_still.enter_again(front_seat, program);
            let back = back_still.enter_again(back_seat);
            Err((core, all, front, back))
        }
    }
}
