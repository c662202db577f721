//! The program `judge`, which is `./ruu judge LISTING LOG`: a verdict on the events of an out-of-order unit.
#![tactic(auto)]

mod asked;
mod grades;
mod log;
mod options;
mod stages;

use answers::read_listing;
use asked::{Asked, NoJudging, Wanted, requested};
use counted_io::{ClosedStreams, Counted, Fault, write_whole};
use grades::graded;
use instructions::Program;
use log::{Ended, judged};
use sheets::Held;
use stages::stations_in;
use std::env;
use std::fs::File;
use std::io::Read;
use std::process::ExitCode;

/// The exit status of a program that was refused what it wanted.
const REFUSED: u8 = 5;
/// The exit status for a mistake on the command line.
const USED_WRONG: u8 = 3;
/// The exit status for a fault in the listing.
const NO_LISTING: u8 = 2;

fn main(rt: HostRuntime) -> ExitCode {
    let Ok(_closed) = ClosedStreams::taken(&rt) else {
        return ExitCode::from(REFUSED);
    };
    let words: Vec<String> = match env::args(&rt) {
        Ok(words) => match words.collect(rt.alloc()) {
            Ok(words) => words,
            Err(_) => return refuse(&rt, "memory"),
        },
        Err(_) => return mistaken(&rt, "error: a word is no UTF-8\n"),
    };
    match requested(rt.alloc(), words.as_slice()) {
        Ok(asked) => judge(&rt, &asked),
        Err(NoJudging::Told(text)) => {
            let _ = print!(rt; "{text}");
            ExitCode::from(0)
        }
        Err(NoJudging::Mistaken(text)) => mistaken(&rt, text.as_str()),
        Err(NoJudging::Memory) => refuse(&rt, "memory"),
    }
}

// A failure to print changes no status, here and below.
fn mistaken(rt: &HostRuntime, text: &str) -> ExitCode {
    let _ = eprint!(rt; "{text}");
    ExitCode::from(USED_WRONG)
}

fn refuse(rt: &HostRuntime, what: &str) -> ExitCode {
    let _ = eprintln!(rt; "ruu: {what}");
    ExitCode::from(REFUSED)
}

// What failed.
fn word_of(fault: Fault) -> &'static str {
    match fault {
        Fault::Read => "read",
        Fault::Memory => "memory",
        Fault::Write => "write",
    }
}

// Reads the listing, and then judges the logs, one after another.
fn judge(rt: &HostRuntime, asked: &Asked<'_>) -> ExitCode {
    let Ok(listing) = File::open(rt, asked.listing) else {
        return refuse(rt, "open");
    };
    match read_listing(rt.alloc(), &mut Counted::new(listing)) {
        Ok(Ok(program)) => judge_logs(rt, asked, &program),
        Ok(Err(line)) => {
            let _ = print!(rt; "{line}");
            ExitCode::from(NO_LISTING)
        }
        Err(fault) => refuse(rt, word_of(fault)),
    }
}

// The status is the greatest of those of the logs.
fn judge_logs(rt: &HostRuntime, asked: &Asked<'_>, program: &Program) -> ExitCode {
    let mut status = 0;
    for log in asked.logs.iter() {
        match judge_log(rt, asked, program, log) {
            Ok(found) => status = found.max(status),
            Err(what) => {
                let _ = eprintln!(rt; "ruu: {what}");
                status = REFUSED;
            }
        }
    }
    ExitCode::from(status)
}

// Judges a log; its status, or what failed.
fn judge_log(
    rt: &HostRuntime,
    asked: &Asked<'_>,
    program: &Program,
    log: &str,
) -> Result<u8, &'static str> {
    if log == "-" {
        return judge_from(rt, asked, program, log, rt.stdin());
    }
    match File::open(rt, log) {
        Ok(file) => judge_from(rt, asked, program, log, file),
        Err(_) => Err("open"),
    }
}

// The stations of a file, or how the program ends.
fn held(rt: &HostRuntime, file: &str) -> Result<Result<Vec<Held>, Ended>, &'static str> {
    match File::open(rt, file) {
        Ok(table) => match stations_in(rt.alloc(), table) {
            Ok(found) => Ok(found),
            Err(fault) => Err(word_of(fault)),
        },
        Err(_) => Err("open"),
    }
}

fn judge_from<R: Read + Drop>(
    rt: &HostRuntime,
    asked: &Asked<'_>,
    program: &Program,
    log: &str,
    reader: R,
) -> Result<u8, &'static str> {
    let ended = match asked.wanted {
        Wanted::Verdict | Wanted::Events => judged(rt.alloc(), program, asked, None, reader),
        Wanted::Stations => match held(rt, asked.stations.unwrap_or("-"))? {
            Ok(held) => judged(rt.alloc(), program, asked, Some(held), reader),
            Err(ended) => Ok(ended),
        },
        Wanted::Grades | Wanted::GradesAsCells => graded(rt.alloc(), program, asked, log, reader),
    };
    match ended {
        Ok(Ended { text, status }) => {
            let mut writer = Counted::new(rt.stdout());
            match write_whole(&mut writer, text.as_str().as_bytes()) {
                Ok(()) => Ok(status),
                Err(_) => Err("write"),
            }
        }
        Err(fault) => Err(word_of(fault)),
    }
}
