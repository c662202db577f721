//! Why a file has no listing.
ghost use Rattle.std.specs.Prelude.{◌≡◌};
ghost use Rattle.counted_io.specs.declared.fault.Fault.TheVariants.{Write};
ghost use Rattle.listing.specs.declared.no_listing.NoListing.TheVariants.{Failed, Refused};
ghost use Rattle.listing.specs.Statuses.{status_without_listing};

use counted_io::{Fault, WriteFailed};
use disassembly::Refusal;
use std::fmt;

/// The exit status of a program that was refused what it wanted.
pub const REFUSED: u8 = 5;

/// Why a file has no listing.
#[derive(Clone, Copy, Drop)]
pub enum NoListing {
    /// The file could not be read, or the listing not be written, or memory ran out.
    Failed { fault: Fault },
    /// The file means no program, or memory ran out.
    Refused { why: Refusal },
    /// The file has more than 16,777,216 bytes.
    TooLong,
}

impl NoListing {
    /// The exit status of the program.
    pub fn status(&self) -> u8
        ensures { result ≡ status_without_listing self.now }
    {
        match self {
            NoListing::Failed { .. }
            | NoListing::Refused {
                why: Refusal::Memory,
            } => REFUSED,
            NoListing::Refused { .. } | NoListing::TooLong => 2,
        }
    }
}

impl fmt::Display for NoListing {
    fn fmt<W: fmt::Write>(&self, f: &mut fmt::Formatter<W>) -> fmt::Result {
        match self {
            NoListing::Failed { fault: Fault::Read } => f.write_str("it cannot be read to its end"),
            NoListing::Failed {
                fault: Fault::Write,
            } => f.write_str("the listing cannot be written to its end"),
            NoListing::Failed { fault } => write!(f, "{fault}"),
            NoListing::Refused { why } => write!(f, "{why}"),
            NoListing::TooLong => f.write_str("the file has more than 16777216 bytes"),
        }
    }
}

impl From<Fault> for NoListing {
    ghost from_gives = { λ fault no_listing. no_listing ≡ Failed fault };

    fn from(fault: Fault) -> NoListing {
        NoListing::Failed { fault }
    }
}

impl From<WriteFailed> for NoListing {
    ghost from_gives = { λ _ no_listing. no_listing ≡ Failed Write };

    fn from(_failed: WriteFailed) -> NoListing {
        NoListing::Failed {
            fault: Fault::Write,
        }
    }
}

impl From<Refusal> for NoListing {
    ghost from_gives = { λ why no_listing. no_listing ≡ Refused why };

    fn from(why: Refusal) -> NoListing {
        NoListing::Refused { why }
    }
}
