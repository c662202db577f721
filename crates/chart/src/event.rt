//! What became of a tenant at a turn.
use crate::row::Row;
use one_thread::Stage;

/// How a tenant has left.
#[derive(Clone, Copy)]
pub enum Way {
    /// The tenant has retired, after this number of others.
    Retired(u64),
    /// The tenant was squashed, since it was on a wrong path.
    Squashed,
}

/// What became of a tenant at a turn.
#[derive(Clone, Copy)]
pub enum Event {
    /// The tenant of this row was let, and waits for the values that the tenants at these positions make.
    Let {
        row: Row,
        first: Option<u64>,
        second: Option<u64>,
    },
    /// The tenant at this position has gone on.
    Moved {
        position: u64,
        from: Stage,
        to: Stage,
    },
    /// The load at this position is blocked by the store at the other.
    Blocked {
        position: u64,
        store: u64,
    },
    /// The tenant of this row has left.
    Left {
        row: Row,
        way: Way,
    },
}
