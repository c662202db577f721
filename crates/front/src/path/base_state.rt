//! The base of a path: the registers and the front pc after all tenants that have no record.
ghost use Rattle.std.specs.Prelude.{◌≡◌, replicate};
ghost use Rattle.instructions.specs.declared.op.Half.TheVariants.{Low};
ghost use Rattle.instructions.specs.Programs.{text_start};

use instructions::{Half, Program};
use station::FrontSeat;
use std::snapshot::Snapshot;

/// What the tenants of the path that are not kept have left: the registers, and where the path goes on after them
/// if none is kept.
#[derive(Drop)]
pub struct Base {
    pub registers: [u32; 34],
    pub pc: u32,
    pub half: Half,
    pub station: usize,
    // the seat when the ring was last empty, or first; older tenants need no training
    pub rested: Snapshot<FrontSeat>,
}

impl Base {
    /// The base of a path on which nothing was let.
    pub fn new(seat: &FrontSeat) -> Base
        ensures registers { result.registers ≡ replicate 34 0 }
        ensures pc { result.pc ≡ text_start }
        ensures half { result.half ≡ Low }
        ensures station { result.station ≡ 0 }
        ensures rested { result.rested.value ≡ seat.now }
    {
        Base {
            registers: [0; 34],
            pc: Program::START,
            half: Half::Low,
            station: 0,
            rested: Snapshot::of(seat),
        }
    }
}
