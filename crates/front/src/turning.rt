//! A turn of the front.
ghost use Rattle.std.specs.Prelude.{◌≡◌};
ghost use Rattle.inorder.specs.History.{IsLegal, front};
ghost use Rattle.instructions.specs.Guesses.{Guesses};
ghost use Rattle.front.specs.CreateTable.{IsTouched};
ghost use Rattle.front.specs.Fronts.{KnowsPath, KnowsTable};
ghost use Rattle.front.specs.Path.{rested_at};
ghost use Rattle.front.specs.Training.{given_or};
ghost use Rattle.front.specs.Turns.{TurnAnswers};
ghost use Rattle.station.specs.Seats.{IsSameSeat};

use crate::answers::Turn;
use crate::dispatch::dispatch;
use crate::fetch::{Fetched, fetch};
use crate::needs::leaver;
use crate::path::{CountedTable, Path};
use instructions::{Leaver, Predictor, Program, guess, tell};
use station::{Core, FrontSeat};

// The predicted next pc of the tenant to be let: where that is not fixed, the given one or the predictor's.
fn predict<P: Predictor>(
    predictor: &mut P,
    departed: Option<Leaver>,
    next: &Fetched,
    given: Option<u32>,
) -> u32
    ensures { Guesses (given_or given P.Predicts) P.Learns departed next.now.instr next.now.half
        next.now.pc result predictor.old predictor.new }
{
    let Some(given) = given else {
        return guess(predictor, departed, &next.instr, next.half, next.pc);
    };
    tell(predictor, departed);
    next.instr.fixed_next(next.half, next.pc).unwrap_or(given)
}

/// Lets the next instruction, if that can be let. A given guess stands in for the predictor's.
pub fn turn_on<P: Predictor>(
    core: &Core,
    seat: &mut FrontSeat,
    path: &mut Path,
    creators: &mut CountedTable,
    program: &Program,
    predictor: &mut P,
    given: Option<u32>,
) -> Turn
    requires core { seat.old.core ≡ core.now }
    requires by { seat.old.by ≡ front }
    requires legal { IsLegal core.now.program core.now.sizes seat.old.seen }
    requires program { program.now ≡ core.now.program }
    requires knows { KnowsPath core.now seat.old.seen path.old }
    requires table { KnowsTable core.now seat.old.seen path.old.base creators.old }
    ensures kept { IsSameSeat seat.old seat.new }
    ensures reply { TurnAnswers (given_or given P.Predicts) P.Learns core.now.program
        core.now.sizes (rested_at path.old.base) seat.old.seen seat.new.seen
        predictor.old predictor.new result }
    ensures trained_upto { rested_at path.new.base ≡ rested_at path.old.base }
    ensures knows { KnowsPath core.now seat.new.seen path.new }
    ensures table { KnowsTable core.now seat.new.seen path.new.base creators.new }
    ensures touched { IsTouched 9 creators.old.touched creators.new.touched }
{
    let next = match fetch(core, seat, path, program) {
        Ok(next) => next,
        Err(turn) => return turn,
    };
    let departed = path.release(creators, core.ring(), next.last_value);
    let leaver = leaver(departed);
    let predicted = predict(predictor, leaver, &next, given);
    let tag = dispatch(core, seat, path, creators, &next, predicted);
    Turn::Let {
        station: next.station,
        tag,
        pc: next.pc,
    }
}
