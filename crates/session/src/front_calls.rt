//! A rest of the front, between two meetings with the seat that has seen all.
ghost use Rattle.std.specs.Prelude.{◌≡◌};
ghost use Rattle.front.specs.Rests.{rested_after};
ghost use Rattle.session.specs.Moments.{GrowsLegally};
ghost use Rattle.session.specs.Replies.{IsRest};
ghost use Rattle.station.specs.Seats.{IsSameSeat};

use front::{Front, Rest};
use instructions::Predictor;
use station::{Core, UnitSeat};

/// A rest of the front.
pub fn rest<P: Predictor + Drop>(core: &Core, all: &mut UnitSeat, front: &mut Front<'_, P>) -> Rest
    requires all { all.old.core ≡ core.now }
    requires front { front.old.core ≡ core.now }
    ensures all { IsSameSeat all.old all.new }
    ensures front { front.new.core ≡ core.now }
    ensures rested { front.new.rested ≡ rested_after front.old.rested result }
    ensures touched { front.new.touched ≡ front.old.touched }
    ensures grows { GrowsLegally core.now all.old.seen all.new.seen }
    ensures reply { IsRest core.now all.old.seen all.new.seen front.old.trained_upto
        front.new.trained_upto result }
{
    front.meet(core, all);
    let answer = front.rest(core);
    front.meet(core, all);
    answer
}
