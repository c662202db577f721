//! How a run ends.
use counts::Tally;
use instructions::End;

/// A resource that a run could not have.
#[derive(Clone, Copy)]
pub enum Refusal {
    Memory,
    /// A thread could not be started.
    Thread,
}

/// How a run ended.
#[derive(Drop)]
pub enum Run {
    /// The program stopped.
    Ended(End, Tally),
    /// The limit of instructions was reached, or the commit thread had no turn left.
    LimitReached(End, Tally),
    Refused(Refusal),
}
