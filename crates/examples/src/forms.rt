//! The forms in which a listing is run: under a command line, from bytes to bytes on one thread, and in order.
use crate::example::Example;
use answers::read_listing;
use bench::alone;
use command::{asked, go};
use counted_io::Counted;
use inorder::{Ended, Machine};
use instructions::{Config, End, Ending, NotTaken, Program};
use isa::report_text;
use pool::Gate;
use std::alloc::{AllocError, Global};
use std::io::{self, ErrorKind};
use std::sync::Wait;
use std::thread::Threads;

/// Options that change no report.
pub const OPTION_SETS: &[&[&str]] = &[
    &["--alone"],
    &["--alone", "--units", "4", "--turns", "1"],
    &["--units", "1"],
    &["--units", "4", "--turns", "4294967295"],
    &["--bpred", "nottaken", "--alone"],
    &["--bpred", "taken", "--units", "1"],
    &["--ruu-size", "2"],
    &["--ruu-size", "2", "--alone"],
    &["--ruu-size", "4", "--units", "4"],
    &["--ruu-size", "4", "--alone"],
    &["--ruu-size", "8", "--bpred", "nottaken"],
    &["--ruu-size", "8", "--lsq-size", "2", "--alone"],
    &["--ruu-size", "32", "--lsq-size", "32", "--units", "64"],
    &["--ruu-size", "32", "--alone"],
];

/// Options of runs whose units are held.
pub const HELD: &[&[&str]] = &[
    &["--units", "4"],
    &["--units", "4", "--ruu-size", "4", "--bpred", "taken"],
];

/// The exit status of a run, and what is written.
#[derive(Drop)]
pub struct Answer {
    pub status: u8,
    pub text: Vec<u8>,
}

impl Answer {
    /// Whether this is the status, and the report of the example.
    pub fn is(&self, status: u8, example: &Example) -> bool {
        self.status == status && self.text == example.report
    }
}

/// Whether a form names an option that the listing names too.
pub fn is_named_twice(options: &[&str], form: &[&str]) -> bool {
    form.iter().any(|word| word.starts_with("--") && options.iter().any(|option| *option == *word))
}

// The words of a command line.
fn words<'a>(alloc: Global, options: &[&'a str], form: &[&'a str]) -> io::Result<Vec<&'a str>> {
    let mut words = Vec::new(alloc);
    words.extend_from_slice(&["ruu", "run", "listing"])?;
    words.extend_from_slice(options)?;
    words.extend_from_slice(form)?;
    Ok(words)
}

// A listing may name options that no run has.
fn mistake() -> io::Error {
    io::Error::from(ErrorKind::InvalidInput)
}

/// The run of a listing under a command line with these options.
pub fn run<T: Threads + Wait + Sync, G: Gate + Sync>(
    wait: &T,
    alloc: Global,
    options: &[&str],
    form: &[&str],
    listing: &[u8],
    gate: &G,
) -> io::Result<Answer> {
    let words = words(alloc, options, form)?;
    let Ok(asked) = asked(alloc, words.as_slice()) else {
        return Err(mistake());
    };
    let mut text = Counted::new(Vec::new(alloc));
    let mut reader = Some(Counted::new(listing));
    let went = go(wait, alloc, &asked, &mut reader, &mut text, gate);
    Ok(Answer {
        status: went.status,
        text: text.into_inner(),
    })
}

/// The run of a listing by the one-thread unit, which predicts that no branch is taken.
pub fn from_bytes_to_bytes(alloc: Global, options: &[&str], listing: &[u8]) -> io::Result<Answer> {
    let config = config(alloc, options)?;
    let mut reader = Counted::new(listing);
    let mut text = Counted::new(Vec::new(alloc));
    let Ok(status) = alone(alloc, &mut reader, &mut text, &config, NotTaken) else {
        return Err(io::Error::from(ErrorKind::Other));
    };
    Ok(Answer {
        status: status.number(),
        text: text.into_inner(),
    })
}

/// The report of a listing's run by the in-order machine.
pub fn in_order(alloc: Global, options: &[&str], listing: &[u8]) -> io::Result<Vec<u8>> {
    let config = config(alloc, options)?;
    let program = program(alloc, listing)?;
    let end = end_in_order(alloc, &program, config.limit().into())?;
    Ok(report_text(alloc, &end)?.into_bytes())
}

// The configuration that the options of a listing ask for.
fn config(alloc: Global, options: &[&str]) -> io::Result<Config> {
    let words = words(alloc, options, &[])?;
    match asked(alloc, words.as_slice()) {
        Ok(asked) => Ok(asked.config),
        Err(_) => Err(mistake()),
    }
}

// The program of a listing that has no fault.
fn program(alloc: Global, listing: &[u8]) -> io::Result<Program> {
    match read_listing(alloc, &mut Counted::new(listing)) {
        Ok(Ok(program)) => Ok(program),
        _ => Err(io::Error::from(ErrorKind::InvalidData)),
    }
}

// The end of a program's run by the in-order machine, up to a limit.
fn end_in_order(alloc: Global, program: &Program, limit: u64) -> io::Result<End> {
    match Machine::new(alloc, program) {
        Ok(mut machine) => Ok(end_of(alloc, &mut machine, limit)?),
        Err(_) => Err(io::Error::from(ErrorKind::OutOfMemory)),
    }
}

// Runs a machine up to a limit, and gives its end.
fn end_of(alloc: Global, machine: &mut Machine<'_>, limit: u64) -> Result<End, AllocError> {
    let outcome = match machine.run(limit) {
        Ended::Stopped(stop) => Ending::Stop(stop),
        Ended::Limit => Ending::Limit,
    };
    Ok(End {
        n: machine.count(),
        pc: machine.pc(),
        outcome,
        registers: *machine.registers(),
        memory: Vec::from_slice(alloc, machine.memory())?,
    })
}
