//! The options of `judge`, as help shows them.
use clap::{Arg, ArgAction};
use std::alloc::{AllocError, Global};

/// An option: its name, what help calls its value where it has one, and its help.
#[derive(Clone, Copy)]
pub struct Offered {
    name: &'static str,
    value: Option<&'static str>,
    action: ArgAction,
    help: &'static str,
}

macro_rules! valued {
    ($name:literal, $value:literal, $help:literal) => {
        Offered {
            name: $name,
            value: Some($value),
            action: ArgAction::Set,
            help: $help,
        }
    };
}

// An option that may be given several times.
macro_rules! several {
    ($name:literal, $value:literal, $help:literal) => {
        Offered {
            name: $name,
            value: Some($value),
            action: ArgAction::Append,
            help: $help,
        }
    };
}

macro_rules! flag {
    ($name:literal, $help:literal) => {
        Offered {
            name: $name,
            value: None,
            action: ArgAction::SetTrue,
            help: $help,
        }
    };
}

pub static OPTIONS: [Offered; 18] = [
    valued!(
        "ruu-size",
        "N",
        "Reservation stations: 1 to 4294967295 [default: no bound]"
    ),
    valued!(
        "lsq-size",
        "N",
        "Loads and stores in flight: 0 to 4294967295 [default: no bound]"
    ),
    valued!(
        "issue",
        "EVENT",
        "What the word issue means in the log: dispatch or execute"
    ),
    flag!(
        "guess",
        "A load may take a stated value ahead of older stores, and has it when it retires"
    ),
    flag!(
        "flush",
        "The youngest may be squashed without a misprediction"
    ),
    valued!(
        "within",
        "ORDER",
        "The order inside a cycle: strict, bypass or file [default: strict for tables]"
    ),
    several!(
        "stage",
        "NAME=EVENT",
        "What a stage of a Kanata log is: let, begin, address, read, complete, mend or nothing"
    ),
    flag!(
        "events",
        "Print the log as events, one a line, and judge nothing"
    ),
    flag!(
        "grade",
        "Grade tables: each wrong cell, why, and the earliest cycle that would do"
    ),
    flag!("tsv", "With --grade: cells between tabs, for many tables"),
    valued!("lets", "N", "With --grade: dispatches in a cycle at most"),
    valued!(
        "begins",
        "N",
        "With --grade: begins of execution in a cycle at most"
    ),
    valued!(
        "results",
        "N",
        "With --grade: results in a cycle at most, as there are buses"
    ),
    valued!("commits", "N", "With --grade: commits in a cycle at most"),
    several!(
        "latency",
        "OP=N",
        "With --grade: cycles from the begin of an operation to its result at least"
    ),
    several!(
        "units",
        "OP=N",
        "With --grade: how many of an operation execute in a cycle at most"
    ),
    valued!(
        "stations",
        "TABLE",
        "Compare a table of reservation stations with the unit, after the whole log or --after"
    ),
    valued!(
        "after",
        "N",
        "Take the log up to this cycle, or of a text to this line"
    ),
];

// Options that only grades have a use for, and those that they have no use for.
const OF_GRADES: [&'static str; 7] = [
    "tsv", "lets", "begins", "results", "commits", "latency", "units",
];

const NOT_OF_GRADES: [&'static str; 5] = ["events", "guess", "flush", "stations", "after"];

// Options of the unit, which `--events` does not judge by.
const NOT_OF_EVENTS: [&'static str; 5] = ["ruu-size", "lsq-size", "guess", "flush", "stations"];

/// What stands below the options in help.
pub const NOTES: &str = "\
Example: ruu judge examples/judge/branch.s examples/judge/branch.right.log

The events are let [PC] [-> NEXT], from N PRODUCER, begin N, end N [= V], execute N [= V], address N [= V],
read N [= V], load N [= V], complete N [= V], retire [N] [= V], squash [N], mend N and recover N, where N is how many
were let before. Only their order is judged, and no cycles.

A table has a row for each instruction that was dispatched, and columns by their names: Instruction, Issue, Exec, Mem,
Write, Commit, Squash, Value, with ; , | or tabs between cells such as 3, 3-5 and -. See docs/TEACHING.md. Other logs
with cycles are those of the format Kanata 0004, as chart --trace writes them, and gem5's O3PipeView lines.

A log names no links, no deliveries, and a mend only where it likes. docs/REFERENCE.md says where the judge places them,
and what a machine may do that no event says, with the verdict that it gets.

Exit status: 0 the log is legal, or all rows are right, 1 an event is refused, or a cell is wrong, 2 a fault in the
listing, 3 a mistake on the command line, 4 a log is not read, 5 no memory, or a file could not be opened, read or
written.";

/// An option as an argument of a command.
pub fn made<'a>(alloc: Global, option: Offered) -> Result<Arg<'a>, AllocError> {
    let arg = Arg::new(alloc, option.name)
        .long(option.name)
        .action(option.action)
        .help(option.help);
    let arg = match option.value {
        Some(value) => arg.value_name(value),
        None => arg,
    };
    let arg = if stands_in(&OF_GRADES, option) {
        arg.requires_arg("grade")?
    } else if stands_in(&NOT_OF_GRADES, option) {
        arg.conflicts_with("grade")?
    } else {
        arg
    };
    if stands_in(&NOT_OF_EVENTS, option) {
        arg.conflicts_with("events")
    } else {
        Ok(arg)
    }
}

fn stands_in(names: &[&'static str], option: Offered) -> bool {
    names.iter().any(|name| *name == option.name)
}
