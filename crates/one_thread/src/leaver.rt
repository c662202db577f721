//! Who has left a station, for the predictor.
ghost use Rattle.std.specs.Prelude.{◌≡◌, ◌<◌, length, slice_get, slice_set, None, Some};
ghost use Rattle.instructions.specs.Guesses.{Guesses};
ghost use Rattle.instructions.specs.Instruction.{fixed_next};
ghost use Rattle.one_thread.specs.Leavers.{leaver_by, told_at};

use crate::decoded::Decoded;
use crate::station::Station;
use instructions::{Half, Leaver, Predictor, tell};

/// What the predictor is told of a half of an instruction that has gone on at `next`, unless that was fixed.
#[inline(always)]
pub fn leaver_of(instr: &Decoded, half: Half, pc: u32, next: u32) -> Option<Leaver>
    ensures { result ≡ leaver_by (fixed_next instr.now half pc) pc next }
{
    match instr.fixed_next(half, pc) {
        Some(_) => None,
        None => Some(Leaver { pc, next }),
    }
}

/// What the predictor is told of a tenant that retires.
pub fn told_of(station: &Station) -> Option<Leaver>
    ensures { result ≡ told_at station.now }
{
    leaver_of(&station.instr, station.half, station.pc, station.next)
}

/// Who has left a station, if the predictor is told of it: it is told once.
#[inline(always)]
pub fn take_leaver(leavers: &mut [Option<Leaver>; 32], station: usize) -> Option<Leaver>
    requires { station < length leavers.old }
    ensures is { slice_get leavers.old station ≡ Some result }
    ensures none { leavers.new ≡ slice_set leavers.old station None }
{
    let left = leavers[station];
    if left.is_some() {
        leavers[station] = None;
    }
    left
}

/// Asks a predictor where an instruction goes on, unless that is fixed, once it was told of who has left.
#[inline(always)]
pub fn guess<P: Predictor>(
    predictor: &mut P,
    left: Option<Leaver>,
    instr: &Decoded,
    half: Half,
    pc: u32,
) -> u32
    ensures { Guesses P.Predicts P.Learns left instr.now half pc
        result predictor.old predictor.new }
{
    tell(predictor, left);
    match instr.fixed_next(half, pc) {
        Some(fixed) => fixed,
        None => predictor.predict(pc, instr.as_instr()),
    }
}
