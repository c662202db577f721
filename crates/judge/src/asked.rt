//! What a command line asks for.
use crate::options::{NOTES, OPTIONS, made};
use clap::error::ErrorKind;
use clap::{Arg, ArgAction, ArgMatches, Command};
use events::Issue;
use grading::Bound;
use isa::forms;
use lexical::decimal_in;
use sheets::{StepName, Within, step_in};
use std::alloc::{AllocError, AllocFailed, Global};

/// The version, and on a line of its own the kit by which it is proved: that of `ruu`.
const VERSION: &str = "1.0.0\nrattle-kit-13f logic dac8208d650f15bf";

// No unit has as many stations as this.
const NO_BOUND: usize = 0x1_0000_0000;

/// What is wanted of the logs.
#[derive(Clone, Copy, PartialEq)]
pub enum Wanted {
    Verdict,
    /// The events, as a text.
    Events,
    /// A comparison of a table of stations.
    Stations,
    /// The grades of tables, for people or as cells between tabs.
    Grades,
    GradesAsCells,
}

/// Logs that are to be judged.
#[derive(Drop)]
pub struct Asked<'a> {
    pub listing: &'a str,
    pub logs: Vec<&'a str>,
    pub ring: usize,
    pub queue: usize,
    pub issue: Issue,
    pub guesses: bool,
    pub flushes: bool,
    pub within: Option<Within>,
    pub stages: Vec<StepName<'a>>,
    /// A table of stations, and the cycle after which the unit has them.
    pub stations: Option<&'a str>,
    pub after: Option<u64>,
    pub lets: Option<u64>,
    pub begins: Option<u64>,
    pub results: Option<u64>,
    pub commits: Option<u64>,
    pub latencies: Vec<Bound>,
    pub units: Vec<Bound>,
    pub wanted: Wanted,
}

/// Why nothing is judged.
#[derive(Drop)]
pub enum NoJudging {
    /// Help or the version is wanted.
    Told(String),
    /// The words are refused.
    Mistaken(String),
    Memory,
}

impl From<AllocError> for NoJudging {
    fn from(_error: AllocError) -> NoJudging {
        NoJudging::Memory
    }
}

impl<T: Drop> From<AllocFailed<T>> for NoJudging {
    fn from(_failed: AllocFailed<T>) -> NoJudging {
        NoJudging::Memory
    }
}

// The command line of `judge`.
fn command<'a>(alloc: Global) -> Result<Command<'a>, AllocError> {
    let listing = Arg::new(alloc, "LISTING").required(true).help(
        "The listing that it ran, one instruction a line: see docs/LISTING.md",
    );
    let logs = Arg::new(alloc, "LOG")
        .required(true)
        .action(ArgAction::Append)
        .num_args(1..)
        .help(
            "What it did: events, a table or a log of stages, or - for standard input: see docs/REFERENCE.md",
        );
    let mut command = Command::new(alloc, "judge")
        .about(
            "Judges what another out-of-order machine did: is its log a legal run of the listing?",
        )
        .after_help(NOTES)
        .version(VERSION)
        .arg(listing)?
        .arg(logs)?;
    for option in OPTIONS.iter() {
        command = command.arg(made(alloc, *option)?)?;
    }
    let named = Command::new(alloc, "ruu");
    named.version(VERSION).subcommand(command)
}

fn mistaken(alloc: Global, what: &str) -> NoJudging {
    let text = format!(in alloc; "error: {what}\n\nFor more information, try 'judge --help'.\n");
    match text {
        Ok(text) => NoJudging::Mistaken(text),
        Err(_) => NoJudging::Memory,
    }
}

// The words are refused, or ask for help or the version.
fn refused(alloc: Global, error: &clap::Error) -> NoJudging {
    let told = match error.kind() {
        ErrorKind::DisplayVersion => format!(in alloc; "ruu {VERSION}\n"),
        _ => format!(in alloc; "{error}"),
    };
    match (told, error.kind()) {
        (Err(_), _) | (_, ErrorKind::OutOfMemory) => NoJudging::Memory,
        (Ok(text), ErrorKind::DisplayHelp | ErrorKind::DisplayVersion) => NoJudging::Told(text),
        (Ok(text), _) => NoJudging::Mistaken(text),
    }
}

/// What the words ask for, of which the first two are the program's name and `judge`.
pub fn requested<'a>(alloc: Global, words: &'a [String]) -> Result<Asked<'a>, NoJudging> {
    let command = command(alloc)?;
    let mut matches = match command.try_get_matches_from(words) {
        Ok(matches) => matches,
        Err(error) => return Err(refused(alloc, &error)),
    };
    match matches.remove_subcommand() {
        Some((_, entries)) => read(alloc, &entries),
        None => Err(mistaken(alloc, "there is no command")),
    }
}

fn read<'a>(alloc: Global, matches: &ArgMatches<'a>) -> Result<Asked<'a>, NoJudging> {
    let Some(listing) = matches.get_str("LISTING") else {
        return Err(mistaken(alloc, "there is no LISTING"));
    };
    let mut logs = Vec::new(alloc);
    for log in matches.get_strs("LOG").unwrap_or(&[]) {
        logs.push(*log)?;
    }
    let wanted = wanted_in(matches);
    if logs.len() > 1 && !matches!(wanted, Wanted::Grades | Wanted::GradesAsCells) {
        return Err(mistaken(alloc, "there is one log, unless --grade is given"));
    }
    Ok(Asked {
        listing,
        logs,
        ring: size(alloc, matches, "ruu-size", 1)?,
        queue: size(alloc, matches, "lsq-size", 0)?,
        issue: issue(alloc, matches)?,
        guesses: is_set(matches, "guess"),
        flushes: is_set(matches, "flush"),
        within: within(alloc, matches)?,
        stages: stages(alloc, matches)?,
        stations: matches.get_str("stations"),
        after: number(alloc, matches, "after")?,
        lets: number(alloc, matches, "lets")?,
        begins: number(alloc, matches, "begins")?,
        results: number(alloc, matches, "results")?,
        commits: number(alloc, matches, "commits")?,
        latencies: bounds(alloc, matches, "latency")?,
        units: bounds(alloc, matches, "units")?,
        wanted,
    })
}

fn is_set(matches: &ArgMatches<'_>, name: &str) -> bool {
    matches.get_str(name).is_some_and(|text| text == "true")
}

fn wanted_in(matches: &ArgMatches<'_>) -> Wanted {
    if is_set(matches, "tsv") {
        Wanted::GradesAsCells
    } else if is_set(matches, "grade") {
        Wanted::Grades
    } else if is_set(matches, "events") {
        Wanted::Events
    } else if matches.get_str("stations").is_some() {
        Wanted::Stations
    } else {
        Wanted::Verdict
    }
}

fn size(
    alloc: Global,
    matches: &ArgMatches<'_>,
    name: &str,
    least: u32,
) -> Result<usize, NoJudging> {
    let Some(text) = matches.get_str(name) else {
        return Ok(NO_BOUND);
    };
    match decimal_in(text.as_bytes(), 0xffff_ffff) {
        Some(size) if least <= size => Ok(size as usize),
        _ => Err(mistaken(
            alloc,
            "a size is a number from 1, or 0 for --lsq-size, to 4294967295",
        )),
    }
}

fn issue(alloc: Global, matches: &ArgMatches<'_>) -> Result<Issue, NoJudging> {
    match matches.get_str("issue") {
        None => Ok(Issue::Ambiguous),
        Some("dispatch") => Ok(Issue::Dispatch),
        Some("execute") => Ok(Issue::Execute),
        Some(_) => Err(mistaken(alloc, "--issue is dispatch or execute")),
    }
}

fn within(alloc: Global, matches: &ArgMatches<'_>) -> Result<Option<Within>, NoJudging> {
    match matches.get_str("within") {
        None => Ok(None),
        Some("strict") => Ok(Some(Within::Strict)),
        Some("bypass") => Ok(Some(Within::Bypass)),
        Some("file") => Ok(Some(Within::File)),
        Some(_) => Err(mistaken(alloc, "--within is strict, bypass or file")),
    }
}

// A stage's name and what it is, with = between them.
fn stage<'a>(text: &'a str) -> Option<StepName<'a>> {
    let (name, step) = text.split_once('=')?;
    let step = step_in(step)?;
    Some(StepName { name, step })
}

fn stages<'a>(alloc: Global, matches: &ArgMatches<'a>) -> Result<Vec<StepName<'a>>, NoJudging> {
    let mut stages = Vec::new(alloc);
    for text in matches.get_strs("stage").unwrap_or(&[]) {
        match stage(text) {
            Some(name) => stages.push(name)?,
            None => {
                return Err(mistaken(
                    alloc,
                    "--stage is NAME=EVENT, and EVENT is let, begin, address, read, complete, mend or nothing",
                ));
            }
        }
    }
    Ok(stages)
}

// A number of cycles, or of things in a cycle.
fn number(alloc: Global, matches: &ArgMatches<'_>, name: &str) -> Result<Option<u64>, NoJudging> {
    let Some(text) = matches.get_str(name) else {
        return Ok(None);
    };
    match decimal_in(text.as_bytes(), 999_999_999) {
        Some(number) => Ok(Some(u64::from(number))),
        None => Err(mistaken(alloc, "a number from 0 to 999999999 is wanted")),
    }
}

// An operation and a number, with = between them.
fn bound(text: &str) -> Option<Bound> {
    let (name, number) = text.split_once('=')?;
    let n = u64::from(decimal_in(number.as_bytes(), 999_999_999)?);
    for form in forms() {
        if form.has_word(name.as_bytes()) {
            return Some(Bound { op: form.op, n });
        }
    }
    None
}

fn bounds(alloc: Global, matches: &ArgMatches<'_>, name: &str) -> Result<Vec<Bound>, NoJudging> {
    let mut bounds = Vec::new(alloc);
    for text in matches.get_strs(name).unwrap_or(&[]) {
        match bound(text) {
            Some(bound) => bounds.push(bound)?,
            None => return Err(mistaken(alloc, "an operation and a number are wanted, as lw=2")),
        }
    }
    Ok(bounds)
}
