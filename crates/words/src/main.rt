//! The program `words`, which is `./ruu words FILE`: the machine words of a listing, or its executable.
#![tactic(auto)]

mod asked;
mod encoded;
mod executable;
mod lines;
mod no_words;
mod output;
mod reasons;
mod writing;

use answers::MOST_TAKEN;
use asked::{Asked, Request, USAGE, VERSION, requested};
use counted_io::{ClosedStreams, Counted, Fault, read_up_to, write_whole};
use encoded::words_of;
use executable::executable;
use instructions::Program;
use isa::{FaultKind, TextFault, fault_text, parse_with_lines};
use no_words::NoWords;
use output::open_output;
use reasons::{reason_of, word_of};
use std::alloc::Global;
use std::env;
use std::fs::{File, Metadata};
use std::io::{ErrorKind, Read};
use std::process::ExitCode;
use writing::write_words;

/// The exit status of a program that was refused what it wanted.
const REFUSED: u8 = 5;

/// The exit status for a mistake on the command line.
const USED_WRONG: u8 = 3;

/// The exit status for a listing with a fault, or without an executable.
const NO_WORDS: u8 = 2;

fn main(rt: HostRuntime) -> ExitCode {
    let Ok(_closed) = ClosedStreams::taken(&rt) else {
        return ExitCode::from(REFUSED);
    };
    let words: Vec<String> = match env::args(&rt) {
        Ok(words) => match words.collect(rt.alloc()) {
            Ok(words) => words,
            Err(_) => return refuse(&rt, "memory"),
        },
        Err(error) => {
            return match error.kind() {
                ErrorKind::OutOfMemory => refuse(&rt, "memory"),
                _ => mistaken(&rt, "a word is no UTF-8"),
            };
        }
    };
    match requested(words.as_slice()) {
        Ok(Request::Help) => tell(&rt, USAGE),
        Ok(Request::Version) => tell(&rt, VERSION),
        Ok(Request::Words(asked)) => start(&rt, &asked),
        Err(why) => mistaken(&rt, why),
    }
}

// A failure to print changes no status, here and below.
fn tell(rt: &HostRuntime, text: &str) -> ExitCode {
    let _ = print!(rt; "{text}");
    ExitCode::from(0)
}

fn mistaken(rt: &HostRuntime, why: &str) -> ExitCode {
    let _ = eprint!(rt;
        "error: {why}\n\nUsage: ruu words [OPTIONS] <FILE>\n\nFor more information, try '--help'.\n"
    );
    ExitCode::from(USED_WRONG)
}

fn refuse(rt: &HostRuntime, what: &str) -> ExitCode {
    let _ = eprintln!(rt; "ruu: {what}");
    ExitCode::from(REFUSED)
}

// Opens the listing; one that does not open is named with the system's reason.
fn start(rt: &HostRuntime, asked: &Asked<'_>) -> ExitCode {
    let file = asked.file;
    if file == "-" {
        return start_from(rt, asked, rt.stdin(), None);
    }
    match File::open(rt, file) {
        Ok(listing) => {
            let metadata = listing.metadata().ok();
            start_from(rt, asked, listing, metadata)
        }
        Err(reason) => {
            let _ = eprintln!(rt; "ruu: {file}: {reason}");
            ExitCode::from(REFUSED)
        }
    }
}

// Reads the listing; the line of a fault in it is written.
fn start_from<R: Read + Drop>(
    rt: &HostRuntime,
    asked: &Asked<'_>,
    input: R,
    metadata: Option<Metadata>,
) -> ExitCode {
    let bytes = match read_up_to(rt.alloc(), &mut Counted::new(input), MOST_TAKEN) {
        Ok(bytes) => bytes,
        Err(fault) => return refuse(rt, word_of(fault)),
    };
    match parse_with_lines(rt.alloc(), bytes.as_slice()) {
        Ok((program, lines)) => give(rt, asked, &program, lines.as_slice(), metadata),
        Err(fault) => match write_fault(rt, &fault) {
            Ok(()) => ExitCode::from(NO_WORDS),
            Err(fault) => refuse(rt, word_of(fault)),
        },
    }
}

fn write_fault(rt: &HostRuntime, fault: &TextFault) -> Result<(), Fault> {
    if fault.kind == FaultKind::Memory {
        return Err(Fault::Memory);
    }
    let text = fault_text(rt.alloc(), fault)?;
    write_whole(&mut Counted::new(rt.stdout()), text.as_str().as_bytes())?;
    Ok(())
}

// Gives what is asked for of a program.
fn give(
    rt: &HostRuntime,
    asked: &Asked<'_>,
    program: &Program,
    lines: &[u64],
    metadata: Option<Metadata>,
) -> ExitCode {
    let given = match asked.elf {
        None => write_words(rt.alloc(), program, &mut Counted::new(rt.stdout())),
        Some(path) => match executable_of(rt.alloc(), program) {
            Ok(bytes) => return write_file(rt, path, bytes.as_slice(), metadata),
            Err(why) => Err(why),
        },
    };
    match given {
        Ok(()) => ExitCode::from(0),
        Err(NoWords::Failed { fault }) => refuse(rt, word_of(fault)),
        Err(why) => tell_reason(rt, asked.file, lines, why),
    }
}

fn executable_of(alloc: Global, program: &Program) -> Result<Vec<u8>, NoWords> {
    let words = words_of(alloc, program)?;
    executable(alloc, program, words.as_slice())
}

// Tells why there are no words, or no executable, with the line.
fn tell_reason(rt: &HostRuntime, file: &str, lines: &[u64], why: NoWords) -> ExitCode {
    let (index, reason) = reason_of(why);
    let line = match index {
        Some(index) => lines.get(index),
        None => None,
    };
    let _ = match line {
        Some(line) => eprintln!(rt; "ruu: {file}: line {line}: {reason}"),
        None => eprintln!(rt; "ruu: {file}: {reason}"),
    };
    ExitCode::from(NO_WORDS)
}

fn write_file(rt: &HostRuntime, path: &str, bytes: &[u8], metadata: Option<Metadata>) -> ExitCode {
    let file = match open_output(rt, path, metadata) {
        Ok(file) => file,
        Err(why) => {
            let _ = eprintln!(rt; "ruu: {path}: {why}");
            return ExitCode::from(why.status());
        }
    };
    match write_whole(&mut Counted::new(file), bytes) {
        Ok(()) => ExitCode::from(0),
        Err(_) => refuse(rt, "write"),
    }
}
