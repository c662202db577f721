//! The refusals of an executable.
ghost use Rattle.std.specs.Prelude.{◌≡◌};
ghost use Rattle.disassembly.specs.declared.refusal.Refusal.TheVariants.{Memory};
ghost use Rattle.disassembly.specs.Conversion.{refusal_by_file};

use crate::Foreign;
use elf::Refusal as FileRefusal;
use std::alloc::{AllocError, AllocFailed};
use thiserror::Error;

/// The reason for which a file gives no listing.
#[derive(Clone, Copy, Debug, Drop, PartialEq, Eq, Error)]
pub enum Refusal {
    /// The file is no program for this machine.
    #[error("{why}")]
    File {
        why: FileRefusal,
    },
    #[error("the word {word:#010x} at {address:#010x} is no operation here: it is {what}")]
    Word {
        address: u32,
        word: u32,
        what: Foreign,
    },
    #[error("the word {word:#010x} at {address:#010x} goes to {target:#010x}, outside the text")]
    Target {
        address: u32,
        word: u32,
        target: u32,
    },
    #[error("the word {word:#010x} at {address:#010x} is in a delay slot and is no nop")]
    Slot {
        address: u32,
        word: u32,
    },
    #[error("the word {word:#010x} at {address:#010x} has no delay slot behind it")]
    NoSlot {
        address: u32,
        word: u32,
    },
    #[error("out of memory")]
    Memory,
}

impl From<FileRefusal> for Refusal {
    ghost from_gives = { λ why e. e ≡ refusal_by_file why };

    fn from(why: FileRefusal) -> Refusal {
        match why {
            FileRefusal::Memory => Refusal::Memory,
            _ => Refusal::File { why },
        }
    }
}

impl From<AllocError> for Refusal {
    ghost from_gives = { λ _ e. e ≡ Memory };

    fn from(error: AllocError) -> Refusal {
        Refusal::from(FileRefusal::from(error))
    }
}

impl<T: Drop> From<AllocFailed<T>> for Refusal {
    ghost from_gives = { λ _ e. e ≡ Memory };

    fn from(failed: AllocFailed<T>) -> Refusal {
        Refusal::from(FileRefusal::from(failed))
    }
}
