//! What fails where an input is read or a text written.
ghost use Rattle.std.specs.Prelude.{◌≡◌};
ghost use Rattle.counted_io.specs.declared.fault.Fault.TheVariants.{Memory as NoRoom, Write as Unwritten};

use crate::output::WriteFailed;
use instructions::Memory;
use std::alloc::AllocError;
use thiserror::Error;

/// What failed where an input was to be read or a text to be written. There is no second try.
#[derive(Clone, Copy, Debug, PartialEq, Eq, Error)]
pub enum Fault {
    /// The reader failed.
    #[error("the input could not be read")]
    Read,
    /// Memory was refused.
    #[error("out of memory")]
    Memory,
    /// The writer failed, or took no byte.
    #[error("the output could not be written")]
    Write,
}

impl From<AllocError> for Fault {
    ghost from_gives = { λ _ fault. fault ≡ NoRoom };

    fn from(_error: AllocError) -> Fault {
        Fault::Memory
    }
}

impl From<Memory> for Fault {
    ghost from_gives = { λ _ fault. fault ≡ NoRoom };

    fn from(_memory: Memory) -> Fault {
        Fault::Memory
    }
}

impl From<WriteFailed> for Fault {
    ghost from_gives = { λ _ fault. fault ≡ Unwritten };

    fn from(_failed: WriteFailed) -> Fault {
        Fault::Write
    }
}
