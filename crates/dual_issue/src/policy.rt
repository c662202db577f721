//! The policy: a chooser that goes through rounds.
ghost use Rattle.std.specs.Prelude.{⊤};

use one_thread::{Chooser, Step};

/// How many tenants retire in a round at the most, and how many instructions are let.
const WIDTH: u32 = 2;

/// The steps of the rest of a part, and of three whole parts: one of them is possible. After each part comes the next one.
const MOST: u32 = 4 * (WIDTH + 1);

/// The parts of a round, in their order.
#[derive(Clone, Copy)]
enum Part {
    /// The number of tenants that may still retire.
    Retirement(u32),
    /// The tenants of these ages, which were ready when the part began, still execute.
    Execution(Option<usize>, Option<usize>),
    /// The number of instructions that may still be let.
    Dispatch(u32),
}

/// A policy of two: in a round up to two tenants retire, the oldest two that are ready when that is done execute, or get
/// the value of their load, and up to two instructions are let. A misprediction is recovered from at once.
#[derive(Drop)]
pub struct DualIssue {
    part: Part,
    rounds: u64,
}

impl DualIssue {
    /// The policy at the begin of its first round.
    pub fn new() -> DualIssue {
        DualIssue {
            part: Part::Retirement(WIDTH),
            rounds: 0,
        }
    }

    /// How many rounds have ended.
    pub fn rounds(&self) -> u64 {
        self.rounds
    }

    // Takes the next step off those that this part of the round may still make; none where it has no more.
    fn wanted(&mut self) -> Option<Work> {
        match self.part {
            Part::Retirement(0) | Part::Execution(None, _) | Part::Dispatch(0) => None,
            Part::Retirement(more) => {
                self.part = Part::Retirement(more - 1);
                Some(Work::Retirement)
            }
            Part::Execution(Some(age), second) => {
                self.part = Part::Execution(second, None);
                Some(Work::Execution(age))
            }
            Part::Dispatch(more) => {
                self.part = Part::Dispatch(more - 1);
                Some(Work::Dispatch)
            }
        }
    }

    // Goes on to the next part, or to the next round.
    fn advance(&mut self, steps: &[Step]) {
        self.part = match self.part {
            Part::Retirement(_) => {
                let (first, second) = oldest_two(steps);
                Part::Execution(first, second)
            }
            Part::Execution(_, _) => Part::Dispatch(WIDTH),
            Part::Dispatch(_) => {
                self.rounds = self.rounds.saturating_add(1);
                Part::Retirement(WIDTH)
            }
        };
    }
}

/// What a step does, as far as the policy looks at it.
#[derive(Clone, Copy, PartialEq, Eq)]
enum Work {
    Recovery,
    Dispatch,
    /// The tenant of this age executes, or gets the value of its load.
    Execution(usize),
    Retirement,
}

// What a step does.
fn work_of(step: &Step) -> Work {
    match step {
        Step::Recover(_) => Work::Recovery,
        Step::Let(_) => Work::Dispatch,
        Step::Run(ready) => Work::Execution(ready.at),
        Step::Load(answered) => Work::Execution(answered.at),
        Step::Retire => Work::Retirement,
    }
}

// Where a step that is wanted stands among those that are possible.
fn place(steps: &[Step], wanted: Work) -> Option<u32> {
    for (at, step) in steps.iter().enumerate() {
        if work_of(step) == wanted {
            return u32::try_from(at).ok();
        }
    }
    None
}

// Two ages, the lesser first, with one more, of which the greatest is dropped.
fn with_age(two: (Option<usize>, Option<usize>), age: usize) -> (Option<usize>, Option<usize>) {
    match two {
        (Some(first), _) if age < first => (Some(age), Some(first)),
        (Some(first), Some(second)) => (Some(first), Some(second.min(age))),
        (Some(first), None) => (Some(first), Some(age)),
        (None, _) => (Some(age), None),
    }
}

// The ages of the oldest two tenants that can execute, or get the value of their load.
fn oldest_two(steps: &[Step]) -> (Option<usize>, Option<usize>) {
    let mut two = (None, None);
    for step in steps.iter() {
        if let Work::Execution(age) = work_of(step) {
            two = with_age(two, age);
        }
    }
    two
}

impl Chooser for DualIssue {
    ghost Chooses = { λ old steps answer new. ⊤ };

    fn choose(&mut self, steps: &[Step]) -> u32 {
        if let Some(at) = place(steps, Work::Recovery) {
            return at;
        }
        for _ in 0..MOST {
            match self.wanted() {
                None => self.advance(steps),
                Some(wanted) => {
                    if let Some(at) = place(steps, wanted) {
                        return at;
                    }
                }
            }
        }
        0
    }
}
