//! Events with their places.
use crate::stage::Stage;
use events::Event;

/// Where an event stands in a file.
#[derive(Clone, Copy)]
pub struct Place {
    pub line: u64,
    pub cycle: u64,
}

/// What an event is, as far as the order in a cycle minds.
#[derive(Clone, Copy, PartialEq)]
pub enum Moment {
    Let,
    Begin,
    /// Execution ends in a later cycle than it began.
    End,
    /// Execution ends in the cycle in which it began.
    EndAtOnce,
    Read,
    Retire,
    /// A squash, where the misprediction was known in an earlier cycle.
    Recover,
    /// A squash in the cycle in which the misprediction is known.
    Squash,
}

impl Moment {
    /// Execution ends.
    pub fn is_end(self) -> bool {
        matches!(self, Moment::End | Moment::EndAtOnce)
    }
}

/// An event of a row.
#[derive(Clone, Copy)]
pub struct Placed {
    pub event: Event,
    pub place: Place,
    pub row: usize,
    /// The stage whose cell names the cycle.
    pub stage: Stage,
    pub moment: Moment,
    /// The cell is empty, and the event stands at the first cycle that it could have.
    pub is_missing: bool,
}
