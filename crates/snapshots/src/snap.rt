//! Snapshots.
ghost use Rattle.std.specs.Prelude.{◌≡◌};
ghost use Rattle.snapshots.specs.Snapshots.{opening};

use instructions::Program;
use left_right::Absorb;
use std::alloc::AllocError;

/// The registers and the pc of the in-order state after `n` instructions: register 0 first, LO and HI last.
#[derive(Clone, Copy, Debug, PartialEq, Eq)]
pub struct Snap {
    pub n: u64,
    pub pc: u32,
    pub registers: [u32; 34],
}

impl Snap {
    /// The snapshot of a state in which no instruction was run.
    pub fn opening() -> Snap
        ensures { result ≡ opening }
    {
        Snap {
            n: 0,
            pc: Program::START,
            registers: [0; 34],
        }
    }
}

// What is published is the newest snapshot; that needs no memory.
impl Absorb<Snap> for Snap {
    ghost use Rattle.std.specs.Prelude.{⊤};

    type State = Snap;

    ghost state = { λ shown. shown };

    ghost applied = { λ shown next. next };

    ghost never_fails = { ⊤ };

    fn absorb_first(&mut self, operation: &Snap, _other: &Snap) -> Result<(), AllocError> {
        *self = *operation;
        Ok(())
    }
}
