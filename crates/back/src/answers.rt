//! The answers of the calls.
use instructions::Stop;

/// The answer of a commit.
#[derive(Clone, Copy, Debug, PartialEq, Eq)]
pub enum Commit {
    /// The oldest live tenant retired, and its instruction is whole: its pc, and how many instructions are committed by
    /// then, this one among them.
    Retired { pc: u32, n: u64 },
    /// The first half of a multiplication or division retired: the pc of that instruction. Its second half
    /// commits it, so count, pc and registers are still those before it.
    Half { pc: u32 },
    /// The oldest live tenant cannot retire yet.
    NotDone,
    /// Nobody is live.
    Empty,
    /// The run has ended: a stop has retired, or the pc is the address of no instruction.
    Ended(Stop),
}

/// The answer of a refresh. Tenants are named by their stations.
#[derive(Clone, Copy, Debug, PartialEq, Eq)]
pub enum Refresh {
    /// This load got its value.
    Loaded {
        station: usize,
        tag: u32,
        value: u32,
    },
    /// The first load that waits for a store, and the store that it waits for.
    Blocked {
        load: usize,
        store: usize,
    },
    /// No load waits for its value.
    Idle,
}
