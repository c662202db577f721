//! How a predictor is trained and asked.
ghost use Rattle.std.specs.Prelude.{◌≡◌};
ghost use Rattle.instructions.specs.Guesses.{Guesses, IsTold};

use crate::{Half, Instr, Predictor};

/// An instruction that has left its station and trains the predictor: the one at `pc`, about which the predictor was
/// asked, has gone on at `next`.
#[derive(Clone, Copy)]
pub struct Leaver {
    pub pc: u32,
    pub next: u32,
}

/// Trains a predictor with an instruction that has left, if there is one.
pub fn tell<P: Predictor>(predictor: &mut P, left: Option<Leaver>)
    ensures { IsTold P.Learns left predictor.old predictor.new }
{
    if let Some(leaver) = left {
        predictor.told(leaver.pc, leaver.next);
    }
}

/// Trains a predictor with an instruction that has left, and asks it for the pc after the next instruction, unless that
/// is fixed.
pub fn guess<P: Predictor>(
    predictor: &mut P,
    left: Option<Leaver>,
    instr: &Instr,
    half: Half,
    pc: u32,
) -> u32
    ensures { Guesses P.Predicts P.Learns left instr.now half pc result
        predictor.old predictor.new }
{
    tell(predictor, left);
    match instr.fixed_next(half, pc) {
        Some(fixed) => fixed,
        None => predictor.predict(pc, instr),
    }
}
