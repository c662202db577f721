//! Marks.

/// Says that a snapshot after `n` instructions was published. A snapper that learns it takes none
/// that is older.
#[derive(Clone, Copy, Debug, PartialEq, Eq)]
pub struct Mark {
    pub n: u64,
}
