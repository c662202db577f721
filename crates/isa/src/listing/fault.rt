//! The faults of a listing.
ghost use Rattle.std.specs.Prelude.{◌≡◌, ◌≢◌};
ghost use Rattle.isa.specs.declared.listing.fault.FaultKind.TheVariants.{Memory};
ghost use Rattle.isa.specs.declared.listing.spot.Spot.TheVariants.{Whole};
ghost use Rattle.isa.specs.Reading.{fault_code, fault_name};

use super::spot::Spot;
use std::alloc::{AllocError, AllocFailed};
use thiserror::Error;

/// The kind of a fault.
#[derive(Clone, Copy, Debug, PartialEq, Eq, Error)]
pub enum FaultKind {
    #[error("a byte before the comment is neither a tab nor printable ASCII")]
    NotAscii,
    #[error("no operation or directive has this word")]
    UnknownOp,
    #[error("no register has this number or name")]
    BadRegister,
    #[error("this is no number, or one out of its range")]
    BadNumber,
    #[error("these are not the operands of the form")]
    BadOperands,
    #[error("no line has this label")]
    UnknownLabel,
    #[error("an earlier line has this label, or this line before it")]
    DoubleLabel,
    #[error("the listing, its text or its data is too long")]
    TooLong,
    #[error("out of memory")]
    Memory,
}

impl FaultKind {
    /// The number of the kind, 1 to 9.
    pub fn code(self) -> u32
        ensures { result ≡ fault_code self }
    {
        match self {
            FaultKind::NotAscii => 1,
            FaultKind::UnknownOp => 2,
            FaultKind::BadRegister => 3,
            FaultKind::BadNumber => 4,
            FaultKind::BadOperands => 5,
            FaultKind::UnknownLabel => 6,
            FaultKind::DoubleLabel => 7,
            FaultKind::TooLong => 8,
            FaultKind::Memory => 9,
        }
    }

    /// The word of the kind, as a report has it.
    pub fn name(self) -> &'static str
        ensures { result.now ≡ fault_name self }
    {
        match self {
            FaultKind::NotAscii => "NotAscii",
            FaultKind::UnknownOp => "UnknownOp",
            FaultKind::BadRegister => "BadRegister",
            FaultKind::BadNumber => "BadNumber",
            FaultKind::BadOperands => "BadOperands",
            FaultKind::UnknownLabel => "UnknownLabel",
            FaultKind::DoubleLabel => "DoubleLabel",
            FaultKind::TooLong => "TooLong",
            FaultKind::Memory => "Memory",
        }
    }
}

impl From<AllocError> for FaultKind {
    ghost from_gives = { λ _ e. e ≡ Memory };

    fn from(_error: AllocError) -> FaultKind {
        FaultKind::Memory
    }
}

impl<T: Drop> From<AllocFailed<T>> for FaultKind {
    ghost from_gives = { λ _ e. e ≡ Memory };

    fn from(_error: AllocFailed<T>) -> FaultKind {
        FaultKind::Memory
    }
}

/// The fault for which a listing is refused, and its line, counted from 1. A listing that is too long as a whole, and want
/// of memory, have line 0.
#[derive(Clone, Copy, Debug, PartialEq, Eq, Error)]
#[error("line {line}: {kind}")]
pub struct TextFault {
    pub line: u64,
    pub kind: FaultKind,
}

/// The fault for which a listing is refused, and the part of its line that is at fault.
#[derive(Clone, Copy)]
pub struct Marked {
    pub fault: TextFault,
    pub at: Spot,
}

/// A fault of a line, and the part that is at fault.
#[derive(Clone, Copy)]
pub struct LineFault {
    pub kind: FaultKind,
    pub at: Spot,
}

impl From<FaultKind> for LineFault {
    ghost from_gives = { λ kind f. (f.kind ≡ kind) × (f.at ≡ Whole) };

    fn from(kind: FaultKind) -> LineFault {
        LineFault {
            kind,
            at: Spot::Whole,
        }
    }
}

impl From<Marked> for TextFault {
    ghost from_gives = { λ marked f. f ≡ marked.fault };

    fn from(marked: Marked) -> TextFault {
        marked.fault
    }
}

/// A fault of a line. Want of memory has no line.
pub fn fault_at(line: u64, kind: FaultKind) -> TextFault
    ensures kind { result.kind ≡ kind }
    ensures line { kind ≢ FaultKind.Memory → result.line ≡ line }
    ensures memory { kind ≡ FaultKind.Memory → result.line ≡ 0 }
{
    match kind {
        FaultKind::Memory => TextFault { line: 0, kind },
        _ => TextFault { line, kind },
    }
}

impl From<AllocError> for TextFault {
    ghost from_gives = { λ _ f. (f.line ≡ 0) × (f.kind ≡ Memory) };

    fn from(_error: AllocError) -> TextFault {
        TextFault {
            line: 0,
            kind: FaultKind::Memory,
        }
    }
}

impl From<AllocError> for Marked {
    ghost from_gives = { λ _ f. (f.fault.line ≡ 0) × (f.fault.kind ≡ Memory) };

    fn from(error: AllocError) -> Marked {
        Marked {
            fault: TextFault::from(error),
            at: Spot::Whole,
        }
    }
}
