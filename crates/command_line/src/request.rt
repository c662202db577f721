//! What the words of a program ask for.
ghost use Rattle.std.specs.Prelude.{◌≡◌, codes};
ghost use Rattle.std.specs.Str.{bytes_eq};

use instructions::Config;

/// A branch predictor to choose.
#[derive(Clone, Copy, PartialEq, Eq)]
pub enum BranchPredictor {
    NotTaken,
    Taken,
    Bimod,
}

/// A run that is asked for.
#[derive(Clone, Copy)]
pub struct Asked<'a> {
    /// The file of the listing.
    pub file: &'a str,
    pub config: Config,
    pub predictor: BranchPredictor,
    /// The one-thread unit is wanted.
    pub alone: bool,
    /// What the threads have done is to be told while they run.
    pub progress: bool,
    /// The seed by which the one-thread unit chooses its turns; without one each turn is the first that is possible.
    pub seed: Option<u64>,
    /// The seed by which the threads of units are held back; without one nobody holds them.
    pub shake: Option<u64>,
}

/// A run of the one-thread unit that is watched turn by turn. Its units and turns are those of a run that is asked for
/// nothing more.
#[derive(Clone, Copy)]
pub struct RunRequest<'a> {
    /// The file of the listing.
    pub file: &'a str,
    pub config: Config,
    pub predictor: BranchPredictor,
    /// The seed by which turns are chosen.
    pub seed: Option<u64>,
}

/// A run whose chart is asked for.
#[derive(Clone, Copy)]
pub struct Charted<'a> {
    pub run: RunRequest<'a>,
    /// The file that gets the log, by a name that is neither `-` nor that of the listing.
    pub log: Option<&'a str>,
    /// At most this number of instructions get a row.
    pub rows: u64,
    /// The rows are wanted in the order in which instructions leave.
    pub by_leave: bool,
}

/// A listing that is to be read and checked, and not run.
#[derive(Clone, Copy)]
pub struct Checked<'a> {
    /// The file of the listing.
    pub file: &'a str,
    /// Each fault is wanted, and not the first alone.
    pub all: bool,
}

/// A unit that is to be driven by commands.
#[derive(Clone, Copy)]
pub struct ByHand<'a> {
    /// The file of the listing; never `-`, since commands come from standard input.
    pub file: &'a str,
    /// As many units as can be driven; limit and turns are those of a run that is asked for nothing more.
    pub config: Config,
    pub predictor: BranchPredictor,
    /// No prompt is wanted, on a terminal either.
    pub quiet_prompt: bool,
    /// Each command is to be told before its answer.
    pub echo: bool,
    /// The seed by which commands are chosen in place of those from standard input.
    pub seed: Option<u64>,
    /// How many commands the seed chooses at most.
    pub steps: u64,
}

/// Whether a FILE stands for standard input. A file of this name is `./-`.
pub fn is_standard_input(file: &str) -> bool
    ensures { result ≡ bytes_eq file.now (codes "-") }
{
    file == "-"
}
