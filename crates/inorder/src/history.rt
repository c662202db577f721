//! What the callers of a unit do and are told. Contracts alone speak of these types: no value of
//! them is made.

/// The number of one of the two sources of an instruction.
#[derive(Clone, Copy)]
pub enum Source {
    First,
    Second,
}

/// How a new tenant is given a source: its value is known, or comes from its creator.
pub enum Supply {
    Known(u64),
    From,
}

/// An act that runs ahead of what the unit knows, or takes it back. No caller of a shared unit has one.
pub enum Speculation {
    /// A load with its address takes this value, whatever the older stores will leave.
    Guess(u64),
    /// The value that a load has guessed is the one that the older stores leave.
    Confirm,
    /// The youngest live tenant leaves the path, with or without a miss.
    Flush,
}

/// An act on one tenant.
pub enum Act {
    Link(Source),
    Deliver(Source),
    Claim,
    Finish,
    Load,
    /// With the number that a stop takes as what it made. Any other tenant leaves it unused.
    Retire(u64),
    Squash,
    Mend,
    Speculate(Speculation),
}

/// A step of the unit.
pub enum Step {
    /// A tenant enters: the index of its instruction, its predicted next pc, and its two sources.
    Let(u64, u64, Supply, Supply),
    /// The tenant at a position is acted on.
    On(u64, Act),
    /// The stations begin again, with first tags.
    Renew,
}

/// A refusal. Stations are named by number, tenants by their position.
pub enum Refusal {
    NotOpen(u64),
    Waiting(u64, Source),
    Moved(u64),
    Stale(u64),
    NotDone,
    Empty,
    Over,
}

/// The mark that a call adds when it has gone along all links of a tenant, or has asked for a source.
pub enum Mark {
    Walked(u64),
    Asked(u64, Source),
}

/// One thing that a caller did or was told.
pub enum Event {
    Does(Step),
    Refuses(Refusal),
    Marks(Mark),
}

/// An event, with the number of its caller.
pub struct Entry {
    pub by: u64,
    pub event: Event,
}
