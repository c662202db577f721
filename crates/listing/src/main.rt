//! Writes the listing of an executable to standard output: `ruu listing FILE`.
#![tactic(auto)]

ghost use Rattle.std.specs.Prelude.{◌≡◌};
ghost use Rattle.std.specs.Process.{exit_status};
ghost use Rattle.listing.specs.Statuses.{status_without_listing};

mod converting;
mod no_listing;
mod remedies;
mod telling;
mod unset;

use converting::convert;
use counted_io::{ClosedStreams, Counted};
use no_listing::{NoListing, REFUSED};
use std::env;
use std::fs::File;
use std::io::{ErrorKind, Read};
use std::process::ExitCode;
use telling::{tell, warn};

const USAGE: &str = "\
Writes the listing of an ELF32 executable for little endian MIPS: docs/COMPILING.md tells how to
make one.

Usage: ruu listing [--all] FILE, where - is standard input

Options:
      --all      Tell each word that is refused, 200 at most, and not the first alone
  -h, --help     Print help
  -V, --version  Print version

A refusal tells the function, and the flag or change that avoids it. Where $gp is read and nothing
sets it, a warning tells so.

Exit status: 0 the listing was written, 2 the file has none, 3 a mistake on the command line,
5 no memory, or a file could not be opened, read or written.
";

/// The version, and on a line of its own the kit by which it is proved: that of `ruu`.
const VERSION: &str = "ruu 1.0.0\nrattle-kit-13f logic dac8208d650f15bf\n";

// A listing that is asked for.
#[derive(Clone, Copy)]
struct Asked<'a> {
    file: &'a str,
    /// Each refusal is wanted, and not the first alone.
    all: bool,
}

// What the command line asks for.
enum Request<'a> {
    Help,
    Version,
    Listing(Asked<'a>),
}

// What the words ask for, of which the first is the program's name. No file's name begins with a dash, but after `--`.
fn requested(words: &[String]) -> Option<Request<'_>> {
    let mut file = None;
    let mut all = false;
    let mut names = false;
    for word in words.iter().skip(1) {
        let word = word.as_str();
        match word {
            "--" if !names => names = true,
            "-h" | "--help" if !names => return Some(Request::Help),
            "-V" | "--version" if !names => return Some(Request::Version),
            "--all" if !names => all = true,
            _ if file.is_some() || (!names && word != "-" && word.starts_with('-')) => return None,
            _ => file = Some(word),
        }
    }
    Some(Request::Listing(Asked { file: file?, all }))
}

// A failure to print changes no status.
fn refuse(rt: &HostRuntime, asked: Asked<'_>, why: &NoListing, file: &[u8]) -> ExitCode
    ensures { exit_status result ≡ status_without_listing why.now }
{
    tell(rt, asked.file, asked.all, why, file);
    ExitCode::from(why.status())
}

fn write_listing(rt: &HostRuntime, asked: Asked<'_>) -> ExitCode {
    let file = asked.file;
    if file == "-" {
        return write_listing_of(rt, asked, rt.stdin());
    }
    match File::open(rt, file) {
        Ok(executable) => write_listing_of(rt, asked, executable),
        Err(reason) => {
            let _ = eprintln!(rt; "ruu: {file}: {reason}");
            ExitCode::from(REFUSED)
        }
    }
}

fn write_listing_of<R: Read + Drop>(rt: &HostRuntime, asked: Asked<'_>, input: R) -> ExitCode {
    let mut reader = Counted::new(input);
    let mut writer = Counted::new(rt.stdout());
    let mut file = Vec::new(rt.alloc());
    match convert(rt.alloc(), &mut reader, &mut writer, &mut file) {
        Ok(()) => {
            warn(rt, asked.file, file.as_slice());
            ExitCode::from(0)
        }
        Err(why) => refuse(rt, asked, &why, file.as_slice()),
    }
}

// The words of the command line, of which the first is the program's name, or the exit status and what to print.
fn words(rt: &HostRuntime) -> Result<Vec<String>, (u8, &'static str)> {
    match env::args(rt) {
        Ok(words) => words
            .collect(rt.alloc())
            .map_err(|_| (REFUSED, "ruu: memory")),
        Err(error) => Err(match error.kind() {
            ErrorKind::OutOfMemory => (REFUSED, "ruu: memory"),
            _ => (3, "error: a word is no UTF-8"),
        }),
    }
}

fn main(rt: HostRuntime) -> ExitCode {
    let Ok(_closed) = ClosedStreams::taken(&rt) else {
        return ExitCode::from(REFUSED);
    };
    let words = match words(&rt) {
        Ok(words) => words,
        Err((status, why)) => {
            let _ = eprintln!(rt; "{why}");
            return ExitCode::from(status);
        }
    };
    match requested(words.as_slice()) {
        Some(Request::Help) => {
            let _ = print!(rt; "{USAGE}");
            ExitCode::from(0)
        }
        Some(Request::Version) => {
            let _ = print!(rt; "{VERSION}");
            ExitCode::from(0)
        }
        Some(Request::Listing(asked)) => write_listing(&rt, asked),
        None => {
            let _ = eprint!(rt; "{USAGE}");
            ExitCode::from(3)
        }
    }
}
