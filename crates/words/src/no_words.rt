//! Why a listing has no words, or no executable.

use counted_io::{Fault, WriteFailed};
use disassembly::Refusal;
use elf::Refusal as FileRefusal;
use std::alloc::{AllocError, AllocFailed};

/// Why a listing has no words, or no executable.
#[derive(Clone, Copy, Drop)]
pub enum NoWords {
    /// A device or memory failed.
    Failed { fault: Fault },
    /// No word says the instruction of this number.
    Unsaid { index: usize },
    /// The executable would mean another program, for this reason.
    Refused { why: Refusal },
    /// The executable would have another text or other data.
    Differs,
}

impl From<Fault> for NoWords {
    fn from(fault: Fault) -> NoWords {
        NoWords::Failed { fault }
    }
}

impl From<AllocError> for NoWords {
    fn from(error: AllocError) -> NoWords {
        NoWords::from(Fault::from(error))
    }
}

impl<T: Drop> From<AllocFailed<T>> for NoWords {
    fn from(_failed: AllocFailed<T>) -> NoWords {
        NoWords::Failed {
            fault: Fault::Memory,
        }
    }
}

impl From<WriteFailed> for NoWords {
    fn from(failed: WriteFailed) -> NoWords {
        NoWords::from(Fault::from(failed))
    }
}

impl From<Refusal> for NoWords {
    fn from(why: Refusal) -> NoWords {
        match why {
            Refusal::Memory => NoWords::Failed {
                fault: Fault::Memory,
            },
            _ => NoWords::Refused { why },
        }
    }
}

impl From<FileRefusal> for NoWords {
    fn from(why: FileRefusal) -> NoWords {
        NoWords::from(Refusal::from(why))
    }
}
