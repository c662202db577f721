//! How programs end.
ghost use Rattle.std.specs.Prelude.{◌≡◌, Some};
ghost use Rattle.std.specs.Process.{exit_status};
ghost use Rattle.command_line.specs.Exits.{fault_refusal, line_text, refused, refusal_line};
ghost use Rattle.command_line.specs.declared.exit.Refusal.TheVariants.{Memory, Write};

use crate::totals::Totals;
use counted_io::{Fault, WriteFailed};
use counts::Tally;
use std::alloc::AllocError;
use std::fmt;
use std::process::ExitCode;

/// The exit status of a program that was refused what it wanted.
pub const REFUSED: u8 = 5;

/// How a program ends: its exit status, and what standard error is told.
#[derive(Clone, Copy)]
pub struct Exit {
    pub status: u8,
    pub line: Line,
}

/// How a program ends that was refused what it wanted.
pub fn refused(refusal: Refusal) -> Exit
    ensures { result ≡ refused refusal }
{
    Exit {
        status: REFUSED,
        line: Line::Refused(refusal),
    }
}

/// Prints the line of an exit on standard error, if it has one, and gives its status. A failure to
/// print changes no status.
pub fn end(rt: &HostRuntime, exit: Exit) -> ExitCode
    ensures { exit_status result ≡ exit.status }
{
    if exit.line != Line::Nothing {
        let _ = eprintln!(rt; "{}", exit.line);
    }
    ExitCode::from(exit.status)
}

/// What standard error is told at the end of a program. Its `Display` is that line, without a line feed.
#[derive(Clone, Copy, PartialEq, Eq)]
pub enum Line {
    /// Nothing, not even an empty line.
    Nothing,
    /// What the threads of a run did, once its report was written.
    Tally(Tally),
    /// The program was refused what it wanted.
    Refused(Refusal),
}

/// What a program wanted and did not get.
#[derive(Clone, Copy, PartialEq, Eq)]
pub enum Refusal {
    /// The file of the listing did not open.
    Open,
    /// The listing could not be read, or the script that drives its unit.
    Read,
    /// Memory ran out.
    Memory,
    /// A thread could not be started.
    Thread,
    /// Standard output could not be written.
    Write,
    /// The log of `--trace` could not be written.
    Trace,
}

impl fmt::Display for Line {
    ghost output = { λ line. Some (line_text line) };

    fn fmt<W: fmt::Write>(&self, f: &mut fmt::Formatter<W>) -> fmt::Result {
        match self {
            Line::Nothing => Ok(()),
            Line::Tally(tally) => write!(f, "tally {}", Totals { tally: *tally }),
            Line::Refused(refusal) => write!(f, "ruu: {refusal}"),
        }
    }
}

impl fmt::Display for Refusal {
    ghost output = { λ refusal. Some (refusal_line refusal) };

    fn fmt<W: fmt::Write>(&self, f: &mut fmt::Formatter<W>) -> fmt::Result {
        f.write_str(match self {
            Refusal::Open => "open",
            Refusal::Read => "read",
            Refusal::Memory => "memory",
            Refusal::Thread => "thread",
            Refusal::Write => "write",
            Refusal::Trace => "trace",
        })
    }
}

impl From<Fault> for Refusal {
    ghost from_gives = { λ fault refusal. refusal ≡ fault_refusal fault };

    fn from(fault: Fault) -> Refusal {
        match fault {
            Fault::Read => Refusal::Read,
            Fault::Memory => Refusal::Memory,
            Fault::Write => Refusal::Write,
        }
    }
}

impl From<AllocError> for Refusal {
    ghost from_gives = { λ _ refusal. refusal ≡ Memory };

    fn from(_error: AllocError) -> Refusal {
        Refusal::Memory
    }
}

impl From<instructions::Memory> for Refusal {
    ghost from_gives = { λ _ refusal. refusal ≡ Memory };

    fn from(_memory: instructions::Memory) -> Refusal {
        Refusal::Memory
    }
}

impl From<WriteFailed> for Refusal {
    ghost from_gives = { λ _ refusal. refusal ≡ Write };

    fn from(_failed: WriteFailed) -> Refusal {
        Refusal::Write
    }
}
