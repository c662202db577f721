//! A front that leaves its core, and one that enters another.
ghost use Rattle.std.specs.Prelude.{◌≡◌, ◌%◌, length, true};
ghost use Rattle.inorder.specs.History.{front, unit_of};
ghost use Rattle.station.specs.Renewals.{HasNobody};
ghost use Rattle.front.specs.Stills.{GoesOnForFront, next_at};

use crate::dispatcher::Front;
use crate::path::{Base, Creators, Path};
use instructions::{Predictor, Program};
use station::{FrontSeat, what_is_seen_is_legal};
use std::marker::Model;
use std::snapshot::Snapshot;

/// A front without a core: its predictor, what the last tenants have left in the registers, and where the path goes
/// on.
#[derive(Drop)]
pub struct FrontStill<P: Predictor + Drop> {
    base: Base,
    creators: Creators,
    predictor: P,
    // the seat that it gave back
    given_back: Snapshot<FrontSeat>,
}

impl<P: Predictor + Drop> Model for FrontStill<P> {
    ghost use Rattle.front.specs.Stills.{FrontIsStill, TheStillFront};

    ghost Value = { TheStillFront P };

    ghost view = { λ f. record {
      core = f.given_back.value.core;
      seen = f.given_back.value.seen;
      predictor = f.predictor;
      touched = f.creators.counted.touched;
    } };

    ghost invariant = { λ f. FrontIsStill f.given_back.value f.base f.creators.counted };
}

impl<'a, P: Predictor + Drop> Front<'a, P> {
    /// The front leaves its core, and gives its seat back: a rest was `Idle`, and no turn or recovery came after it.
    pub fn leave(self) -> (FrontSeat, FrontStill<P>)
        requires { self.rested ≡ true }
        ensures core { result.0.core ≡ self.entry.core }
        ensures by { result.0.by ≡ front }
        ensures seen { result.0.seen ≡ self.entry.seen }
        ensures nobody { HasNobody (unit_of self.entry.core.program self.entry.core.sizes
            self.entry.seen) }
        ensures still { result.1 ≡ record {
          core = self.entry.core;
          seen = self.entry.seen;
          predictor = self.entry.predictor;
          touched = self.entry.touched;
        } }
        ensures goes_on { GoesOnForFront result.1.core result.1.seen result.0 }
        ensures next { next_at result.0.core result.0.seen ≡ next_at result.1.core result.1.seen }
    {
        let Front {
            seat,
            program: _,
            path,
            creators,
            predictor,
            rested: _,
        } = self;
        let given_back = Snapshot::of(&seat);
        let still = FrontStill {
            base: path.base,
            creators,
            predictor,
            given_back,
        };
        (seat, still)
    }
}

impl<P: Predictor + Drop> FrontStill<P> {
    // Enters the core of a seat whose next tenant goes to this station.
    fn enter_at<'a>(self, seat: FrontSeat, program: &'a Program, station: usize) -> Front<'a, P>
        requires program { program.now ≡ seat.core.program }
        requires goes_on { GoesOnForFront self.core self.seen seat }
        requires next { next_at seat.core seat.seen ≡ station % seat.core.sizes.ring }
        ensures core { result.core ≡ seat.core }
        ensures seen { result.seen ≡ seat.seen }
        ensures predictor { result.predictor ≡ self.predictor }
        ensures touched { result.touched ≡ self.touched }
        ensures trained_upto { result.trained_upto ≡ length (unit_of seat.core.program
            seat.core.sizes seat.seen).tenants }
    {
        what_is_seen_is_legal(&seat);
        let FrontStill {
            base,
            creators,
            predictor,
            given_back: _,
        } = self;
        let rested = Snapshot::of(&seat);
        let base = Base {
            station,
            rested,
            ..base
        };
        Front {
            seat,
            program,
            path: Path::new(base),
            creators,
            predictor,
            rested: false,
        }
    }

    /// Enters a renewed core, where the next tenant goes to station 0. `program` is that of the core.
    pub fn enter<'a>(self, seat: FrontSeat, program: &'a Program) -> Front<'a, P>
        requires program { program.now ≡ seat.core.program }
        requires goes_on { GoesOnForFront self.core self.seen seat }
        requires first { next_at seat.core seat.seen ≡ 0 }
        ensures core { result.core ≡ seat.core }
        ensures seen { result.seen ≡ seat.seen }
        ensures predictor { result.predictor ≡ self.predictor }
        ensures touched { result.touched ≡ self.touched }
        ensures trained_upto { result.trained_upto ≡ length (unit_of seat.core.program
            seat.core.sizes seat.seen).tenants }
    {
        self.enter_at(seat, program, 0)
    }

    /// Goes on at the core that it left, with the seat that a refused renewal gave back. For a renewed core call `enter`.
    pub fn enter_again<'a>(self, seat: FrontSeat, program: &'a Program) -> Front<'a, P>
        requires program { program.now ≡ seat.core.program }
        requires goes_on { GoesOnForFront self.core self.seen seat }
        requires next { next_at seat.core seat.seen ≡ next_at self.core self.seen }
        ensures core { result.core ≡ seat.core }
        ensures seen { result.seen ≡ seat.seen }
        ensures predictor { result.predictor ≡ self.predictor }
        ensures touched { result.touched ≡ self.touched }
        ensures trained_upto { result.trained_upto ≡ length (unit_of seat.core.program
            seat.core.sizes seat.seen).tenants }
    {
        let station = self.base.station;
        self.enter_at(seat, program, station)
    }
}
