//! The words of the programs, each with its page of help and its arguments.
ghost use Rattle.std.specs.Prelude.{◌≡◌, map};
ghost use Rattle.command_line.specs.Tool.{spelling_of, rule_of_argument, rules_of};

use crate::arguments::Argument;

/// The word of a program, which stands after `ruu`.
#[derive(Clone, Copy)]
pub(crate) enum Word {
    Run,
    Chart,
    Commits,
    Check,
    Drive,
}

/// A word, its program, what that is for, what stands below its options in help, and its arguments.
#[derive(Clone, Copy)]
pub(crate) struct Page {
    pub name: &'static str,
    pub program: &'static str,
    pub about: &'static str,
    pub notes: &'static str,
    pub arguments: &'static [Argument],
}

/// The page of a word.
pub(crate) fn page_of(word: Word) -> Page
    ensures name { result.name.now ≡ spelling_of word }
    ensures arguments { map rule_of_argument result.arguments.now ≡ rules_of word }
{
    match word {
        Word::Run => Page {
            name: "run",
            program: "ruu run",
            about: "Runs a listing of MIPS I instructions and writes a report of how it ended",
            notes: RUN_NOTES,
            arguments: RUN_ARGUMENTS.as_slice(),
        },
        Word::Chart => Page {
            name: "chart",
            program: "ruu chart",
            about: "Runs a listing on one thread, writes its report and draws what became of each instruction",
            notes: CHART_NOTES,
            arguments: CHART_ARGUMENTS.as_slice(),
        },
        Word::Commits => Page {
            name: "commits",
            program: "ruu commits",
            about: "Runs a listing in order and writes a line for each instruction that is committed",
            notes: COMMITS_NOTES,
            arguments: COMMITS_ARGUMENTS.as_slice(),
        },
        Word::Check => Page {
            name: "check",
            program: "ruu check",
            about: "Reads a listing, runs nothing, and tells what it holds or where its fault is",
            notes: CHECK_NOTES,
            arguments: CHECK_ARGUMENTS.as_slice(),
        },
        Word::Drive => Page {
            name: "drive",
            program: "ruu drive",
            about: "Drives the unit of a listing by commands from standard input, one a line, and tells each answer",
            notes: DRIVE_NOTES,
            arguments: DRIVE_ARGUMENTS.as_slice(),
        },
    }
}

macro_rules! valued {
    ($name:literal, $value:literal, $help:literal) => {
        Argument::Valued {
            name: $name,
            value: $value,
            help: $help,
        }
    };
}

macro_rules! flag {
    ($name:literal, $help:literal) => {
        Argument::Flag {
            name: $name,
            help: $help,
        }
    };
}

const FILE: Argument = Argument::File(
    "The listing, one instruction a line, or - for standard input: see docs/LISTING.md",
);

const RING: Argument = valued!(
    "ruu-size",
    "N",
    "Reservation stations: 2, 4, 8, 16 or 32 [default: 16]"
);

const QUEUE: Argument = valued!(
    "lsq-size",
    "N",
    "Loads and stores in flight: 2 to 32, at most --ruu-size [default: 8]"
);

const PREDICTOR: Argument = valued!(
    "bpred",
    "NAME",
    "Branch predictor: nottaken, taken or bimod [default: bimod]"
);

const LIMIT: Argument = valued!(
    "limit",
    "N",
    "Instructions to run at most: 0 to 4294967295 [default: 1000000]"
);

const SEED: Argument = valued!(
    "seed",
    "N",
    "Choose each turn by this seed: 0 to 18446744073709551615"
);

static RUN_ARGUMENTS: [Argument; 11] = [
    FILE,
    RING,
    QUEUE,
    valued!(
        "units",
        "N",
        "Threads that execute instructions: 1 to 64 [default: 2]"
    ),
    PREDICTOR,
    valued!(
        "turns",
        "N",
        "Turns of each thread: 1 to 4294967295 [default: 4294967295]"
    ),
    LIMIT,
    flag!("alone", "Run the unit on one thread"),
    flag!("progress", "Tell on standard error how far the threads are"),
    valued!(
        "seed",
        "N",
        "Choose each turn by this seed: 0 to 18446744073709551615; needs --alone"
    ),
    valued!(
        "shake",
        "N",
        "Hold units back by this seed: 0 to 18446744073709551615; not with --alone"
    ),
];

const RUN_NOTES: &str = "\
Example: ruu run examples/sum.s --ruu-size 8 --bpred taken

Where a run stopped is the last line that 'ruu commits FILE' writes.

Exit status: 0 the listing ran to a break, 1 it stopped otherwise, 2 a fault in its text,
3 a mistake on the command line, 4 the limit of instructions or turns was reached,
5 no memory, no thread, or a file could not be opened, read or written.";

static CHART_ARGUMENTS: [Argument; 9] = [
    FILE,
    RING,
    QUEUE,
    PREDICTOR,
    LIMIT,
    SEED,
    valued!(
        "rows",
        "N",
        "Instructions to draw at most, from the first on: 0 to 4294967295 [default: 1000]"
    ),
    flag!(
        "by-leave",
        "Order rows by when instructions retire or are squashed"
    ),
    valued!(
        "trace",
        "LOG",
        "Write each turn to a log for the pipeline viewer Konata"
    ),
];

const CHART_NOTES: &str = "\
Example: ruu chart examples/sum.s --ruu-size 8 --seed 7

The chart is explained in docs/TEACHING.md.

Exit status: 0 the listing ran to a break, 1 it stopped otherwise, 2 a fault in its text,
3 a mistake on the command line, 4 the limit of instructions was reached,
5 no memory, or a file could not be opened, read or written.";

static COMMITS_ARGUMENTS: [Argument; 5] = [
    FILE,
    LIMIT,
    valued!(
        "from",
        "N",
        "Begin with the Nth instruction: 1 to 4294967295 [default: 1]"
    ),
    valued!(
        "hash",
        "N",
        "Write a hash after each N instructions in place of lines: 0, for none, to 4294967295 [default: 0]"
    ),
    flag!(
        "text",
        "Write the text of each instruction at the end of its line"
    ),
];

const COMMITS_NOTES: &str = "\
Example: ruu commits examples/sum.s --from 100 --limit 120

The lines and the hash, which is of registers and memory, are explained in docs/REFERENCE.md. The
last line says where the run stopped, or that it reached the limit.

Exit status: 0 the listing ran to a break, 1 it stopped otherwise, 2 a fault in its text,
3 a mistake on the command line, 4 the limit of instructions was reached,
5 no memory, or a file could not be opened, read or written.";

static CHECK_ARGUMENTS: [Argument; 2] = [
    FILE,
    flag!("all", "Tell the first fault of each line, 200 at most"),
];

const CHECK_NOTES: &str = "\
Example: ruu check examples/sum.s

Exit status: 0 a good listing, 2 a fault in it, 3 a mistake on the command line,
5 no memory, or a file could not be opened, read or written.";

static DRIVE_ARGUMENTS: [Argument; 9] = [
    Argument::File("The listing, one instruction a line: see docs/LISTING.md"),
    RING,
    QUEUE,
    PREDICTOR,
    valued!(
        "first-tag",
        "N",
        "Tag of each station's first tenant: 1 to 268435454 [default: 1]"
    ),
    flag!("quiet-prompt", "Show no prompt on a terminal"),
    flag!("echo", "Write each command before its answer"),
    valued!(
        "shuffle",
        "N",
        "Choose the commands by this number, and read none: 0 to 18446744073709551615"
    ),
    valued!(
        "steps",
        "N",
        "Commands to choose at most: 1 to 1000000; needs --shuffle [default: 400]"
    ),
];

const DRIVE_NOTES: &str = "\
Example: ruu drive examples/drive/relet.s --ruu-size 4 < examples/drive/relet.txt

The commands are explained in docs/TEACHING.md.

Exit status: 0 all commands were answered, 1 a line of the script is no command, 2 a fault in
the listing, 3 a mistake on the command line, 5 no memory, or a file could not be opened, read
or written.";
