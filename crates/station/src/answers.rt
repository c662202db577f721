//! The arguments and answers of the calls.
use crate::job::Job;
use inorder::history::Source;
use instructions::{Half, Stop};

/// A word as it was seen. The value of a station's word is as `StationWord` says, that of an operand's word the value of
/// the source, or 0 while the source waits.
#[derive(Clone, Copy)]
pub struct Seen<S> {
    pub tag: u32,
    pub state: S,
    pub value: u32,
}

/// Whether a source has its value.
#[derive(Clone, Copy)]
pub enum SourceState {
    /// No tenant was let at the station yet.
    Unset,
    Wait,
    Val,
}

/// How a new tenant is given a source.
#[derive(Clone, Copy)]
pub enum Supply {
    /// The value of the source; 0 where the instruction has no such source.
    Known(u32),
    /// The tenant that makes it.
    From { station: usize, tag: u32 },
}

/// A tenant to be let: the index of its instruction and its half of that, its predicted next pc, and
/// sources 1 and 2.
/// A tenant is a dynamic instruction, on its way into a reservation station.
#[derive(Clone, Copy)]
pub struct Tenant {
    pub index: u32,
    pub half: Half,
    pub predicted: u32,
    pub sources: (Supply, Supply),
}

/// The answer of a unit's claim.
pub enum Claim {
    Job(Job),
    /// No tenant of the station is open.
    NotOpen,
    /// The tenant was open, and k is the least source that it needs and that has no value yet.
    Waiting { tag: u32, k: Source },
    /// The tenant was open, and is not open any more.
    Moved { tag: u32 },
}

/// Whether a result reached its tenant.
#[derive(Clone, Copy, Debug, PartialEq)]
pub enum Finish {
    Finished,
    /// The tenant was squashed.
    Stale,
}

/// Whether a load got its value.
#[derive(Clone, Copy)]
pub enum Settle {
    Settled,
    /// The load was squashed.
    Stale,
}

/// The answer of a question for a source.
#[derive(Clone, Copy)]
pub enum Ask {
    /// The source has its value.
    Delivered,
    /// The creator has made nothing yet; who makes its value finds the link.
    Linked,
}

/// How a retired tenant ended.
#[derive(Clone, Copy)]
pub enum Last {
    Done(u32),
    /// A store: its address and data.
    Stored(u32, u32),
    Stop(Stop),
}

/// The answer of a retirement.
#[derive(Clone, Copy)]
pub enum Retire {
    Retired {
        station: usize,
        tag: u32,
        index: u32,
        half: Half,
        last: Last,
    },
    /// The oldest live tenant cannot retire yet.
    NotDone,
    /// Nobody is live.
    Empty,
    /// A stop has retired.
    Over,
}
