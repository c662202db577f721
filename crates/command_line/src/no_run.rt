//! Why a program does nothing but print a text.
ghost use Rattle.std.specs.Prelude.{◌≡◌, IfErr, Some};
ghost use Rattle.std.specs.Process.{exit_status};
ghost use Rattle.command_line.specs.Reading.{IsUsage};
ghost use Rattle.command_line.specs.Statuses.{status_of, no_run_text};

use crate::exit::REFUSED;
use std::alloc::{AllocError, AllocFailed};
use std::io::ErrorKind;
use std::process::ExitCode;
use std::{env, fmt};

/// Why a program does nothing but print a text, which is the `Display` of this. `Ring` and `Memory`
/// have no line feed at the end of theirs.
#[derive(Drop)]
pub enum NoRun {
    /// Help or the version was asked for; this is its text.
    Help(String),
    /// The words are no command line of `ruu`, as the text explains.
    Usage(String),
    /// The ring size is a number that no ring has.
    Ring,
    /// Memory ran out.
    Memory,
}

/// The exit status of the program.
pub fn status(no_run: &NoRun) -> u8
    ensures { result ≡ status_of no_run.now }
{
    match no_run {
        NoRun::Help(_) => 0,
        NoRun::Usage(_) | NoRun::Ring => 3,
        NoRun::Memory => REFUSED,
    }
}

/// The words of the command line, of which the first is the program's name.
pub fn words(rt: &HostRuntime) -> Result<Vec<String>, NoRun>
    ensures { IfErr result IsUsage }
{
    match env::args(rt) {
        Ok(words) => Ok(words.collect(rt.alloc())?),
        Err(error) => Err(match error.kind() {
            ErrorKind::OutOfMemory => NoRun::Memory,
            _ => NoRun::Usage(format!(in rt.alloc(); "error: a word is no UTF-8\n")?),
        }),
    }
}

/// Prints help or the version on standard output, and any other text on standard error. A failure to
/// print changes no status.
pub fn refuse(rt: &HostRuntime, no_run: &NoRun) -> ExitCode
    ensures { exit_status result ≡ status_of no_run.now }
{
    let _ = match no_run {
        NoRun::Help(text) => print!(rt; "{text}"),
        NoRun::Usage(text) => eprint!(rt; "{text}"),
        _ => eprintln!(rt; "{no_run}"),
    };
    ExitCode::from(status(no_run))
}

impl fmt::Display for NoRun {
    ghost output = { λ no_run. Some (no_run_text no_run) };

    fn fmt<W: fmt::Write>(&self, f: &mut fmt::Formatter<W>) -> fmt::Result {
        match self {
            NoRun::Help(text) | NoRun::Usage(text) => f.write_str(text.as_str()),
            NoRun::Ring => f.write_str("ruu: ruu-size must be 2, 4, 8, 16 or 32"),
            NoRun::Memory => f.write_str("ruu: memory"),
        }
    }
}

impl From<AllocError> for NoRun {
    ghost use Rattle.command_line.specs.declared.no_run.NoRun.{NoRun};

    ghost from_gives = { λ _ e. e ≡ NoRun.Memory };

    fn from(_error: AllocError) -> NoRun {
        NoRun::Memory
    }
}
