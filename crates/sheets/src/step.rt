//! What the begin of a stage is.

/// What the begin of a stage of a log is.
#[derive(Clone, Copy, PartialEq)]
pub enum Step {
    Let,
    Begin,
    /// A load or store has its address.
    Address,
    /// A load reads memory.
    Read,
    /// All that is left of the execution.
    Complete,
    /// The execution ends, and shows a misprediction.
    Miss,
    /// A misprediction is mended.
    Mend,
    Nothing,
}

static STEPS: [(&str, Step); 7] = [
    ("let", Step::Let),
    ("begin", Step::Begin),
    ("address", Step::Address),
    ("read", Step::Read),
    ("complete", Step::Complete),
    ("mend", Step::Mend),
    ("nothing", Step::Nothing),
];

static NAMES: [(&str, Step); 17] = [
    ("Ds", Step::Let),
    ("D", Step::Let),
    ("Di", Step::Let),
    ("Is", Step::Begin),
    ("I", Step::Begin),
    ("X", Step::Begin),
    ("Ex", Step::Begin),
    ("Ad", Step::Address),
    ("Me", Step::Read),
    ("M", Step::Read),
    ("Mem", Step::Read),
    ("Cm", Step::Complete),
    ("W", Step::Complete),
    ("Wb", Step::Complete),
    ("WB", Step::Complete),
    ("St", Step::Complete),
    ("Ms", Step::Miss),
];

/// The step with a name.
pub fn step_in(name: &str) -> Option<Step> {
    for (word, step) in STEPS.iter() {
        if *word == name {
            return Some(*step);
        }
    }
    None
}

/// A stage, and what its begin is.
#[derive(Clone, Copy)]
pub struct StepName<'a> {
    pub name: &'a str,
    pub step: Step,
}

/// The names of stages: first those that are given, then those that most logs have.
#[derive(Clone, Copy)]
pub struct StepNames<'a> {
    pub given: &'a [StepName<'a>],
}

impl StepNames<'_> {
    /// What the begin of a stage is, where that is known.
    pub(crate) fn step_of(&self, stage: &[u8]) -> Option<Step> {
        for given in self.given {
            if given.name.as_bytes() == stage {
                return Some(given.step);
            }
        }
        for (name, step) in NAMES.iter() {
            if name.as_bytes() == stage {
                return Some(*step);
            }
        }
        None
    }
}
