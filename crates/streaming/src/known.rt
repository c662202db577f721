//! What an instruction does, where nothing else of it is to be looked at.
ghost use Rattle.std.specs.Prelude.{ℕ, ◌≡◌, IsTrue};
ghost use Rattle.instructions.specs.Guesses.{Guesses};
ghost use Rattle.instructions.specs.Instruction.{destination as destination_of, fixed_next as fixed_next_of, kind as kind_of};
ghost use Rattle.instructions.specs.declared.op.Half.{Half};
ghost use Rattle.instructions.specs.declared.op.Kind.TheVariants.{Computes, Jumps};
ghost use Rattle.streaming.specs.Known.{KnownAs};

use instructions::{Half, Kind, Leaver, Predictor, Reg, pc_plus_4, tell};
use one_thread::{Decoded, Goes, Leaves, guess};

/// The operation computes one value, and the path goes on after it.
#[inline(always)]
pub fn is_plain(instr: &Decoded) -> bool
    ensures computes { IsTrue result → kind_of instr.now.op ≡ Computes }
{
    matches!(instr.goes(), Goes::Plain)
}

/// What it does, unless it is a pair or a call.
#[inline(always)]
pub fn known(instr: &Decoded) -> Option<Kind>
    ensures { KnownAs result instr.now }
{
    match instr.goes() {
        Goes::Plain => Some(Kind::Computes),
        Goes::Behind => match instr.leaves() {
            Leaves::Load => Some(Kind::Loads),
            _ => Some(Kind::Stores),
        },
        Goes::To | Goes::Varies => match instr.kind() {
            Kind::Jumps => Some(Kind::Jumps),
            _ => None,
        },
        Goes::Pair => None,
    }
}

/// What its operation does, which may be known.
#[inline(always)]
pub fn kind_by(instr: &Decoded, known: Option<Kind>) -> Kind
    requires { KnownAs known instr.now }
    ensures { result ≡ kind_of instr.now.op }
{
    known.unwrap_or(instr.kind())
}

/// The register that a half changes, where what the instruction does may be known.
#[inline(always)]
pub fn destination_by(instr: &Decoded, known: Option<Kind>, half: Half) -> Reg
    requires { KnownAs known instr.now }
    ensures { result ≡ destination_of instr.now half }
{
    match known {
        Some(Kind::Jumps | Kind::Stores) => Reg::ZERO,
        _ => instr.destination(half),
    }
}

/// Where a jump that is no call goes on, unless a predictor is asked for it.
#[inline(always)]
pub fn jump_target(instr: &Decoded) -> Option<u32>
    requires { kind_of instr.now.op ≡ Jumps }
    ensures { (half : Half) (pc : ℕ) → result ≡ fixed_next_of instr.now half pc }
{
    match instr.leaves() {
        Leaves::Told => None,
        _ => Some(instr.as_instr().number),
    }
}

/// Asks a predictor as `guess` does. Where it is known what the instruction does, no more of it is looked at than
/// that needs.
#[inline(always)]
pub fn guess_behind<P: Predictor>(
    predictor: &mut P,
    left: Option<Leaver>,
    instr: &Decoded,
    known: Option<Kind>,
    half: Half,
    pc: u32,
) -> u32
    requires { KnownAs known instr.now }
    ensures { Guesses P.Predicts P.Learns left instr.now half pc
        result predictor.old predictor.new }
{
    match known {
        Some(Kind::Computes | Kind::Loads | Kind::Stores) => {
            tell(predictor, left);
            pc_plus_4(pc)
        },
        Some(Kind::Jumps) => {
            tell(predictor, left);
            match jump_target(instr) {
                Some(fixed) => fixed,
                None => predictor.predict(pc, instr.as_instr()),
            }
        },
        _ => guess(predictor, left, instr, half, pc),
    }
}
