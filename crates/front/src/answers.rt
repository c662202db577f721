//! The answers of the calls.

/// The answer of a turn.
#[derive(Clone, Copy, Debug, PartialEq, Eq)]
pub enum Turn {
    /// All stations are in use.
    Full,
    /// The front pc is the address of no instruction.
    NoInstr,
    /// The instruction is a load or store, and as many as the queue takes are in flight.
    QueueFull,
    /// The next station has used up its tags.
    Spent,
    /// A tenant was let.
    Let { station: usize, tag: u32, pc: u32 },
}

/// The creator of a register, or its value.
#[derive(Clone, Copy, Debug, PartialEq, Eq)]
pub enum Made {
    /// The tenant of this station and tag. Its station was not let again, and the front has not rested since.
    Made { station: usize, tag: u32 },
    /// The register's value: it has no creator, or that one's station was let again, or the front has rested since.
    Base(u32),
}

/// The answer of a rest.
#[derive(Clone, Copy, Debug, PartialEq, Eq)]
pub enum Rest {
    /// No tenant is in flight: all results are in the base registers.
    Idle,
    /// Some tenant is in flight.
    Live,
}

/// The answer of a recovery.
#[derive(Clone, Copy, Debug, PartialEq, Eq)]
pub enum Recovery {
    /// The miss of this station was mended, after that many younger tenants were squashed.
    Mended { station: usize, squashed: usize },
    /// There was no miss when the call began.
    NoMiss,
}
