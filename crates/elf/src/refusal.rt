//! The refusals of a file.
ghost use Rattle.std.specs.Prelude.{◌≡◌};
ghost use Rattle.elf.specs.declared.refusal.Refusal.TheVariants.{Memory};

use std::alloc::{AllocError, AllocFailed};
use thiserror::Error;

/// The reason for which a file is no program for this machine.
#[derive(Clone, Copy, Debug, Drop, PartialEq, Eq, Error)]
pub enum Refusal {
    #[error("this is no ELF file")]
    NotElf,
    #[error("the file ends before what it names")]
    Cut,
    #[error("the file is not of the class of 32 bits")]
    Class,
    #[error("the file is not little endian")]
    ByteOrder,
    #[error("the file is no executable")]
    Kind,
    #[error("the file is not for MIPS")]
    Machine,
    #[error("the program begins at {address:#010x}, and not at 0x00400000")]
    Entry { address: u32 },
    #[error("the program headers do not have 32 bytes each")]
    Headers,
    #[error("the segment at {address:#010x} does not fit")]
    Segment { address: u32 },
    #[error("no segment is at 0x00400000")]
    NoText,
    #[error("out of memory")]
    Memory,
}

impl From<AllocError> for Refusal {
    ghost from_gives = { λ _ e. e ≡ Memory };

    fn from(_error: AllocError) -> Refusal {
        Refusal::Memory
    }
}

impl<T: Drop> From<AllocFailed<T>> for Refusal {
    ghost from_gives = { λ _ e. e ≡ Memory };

    fn from(_error: AllocFailed<T>) -> Refusal {
        Refusal::Memory
    }
}
