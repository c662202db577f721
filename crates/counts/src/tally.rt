//! The totals of a run: lets, claims, and all else that is counted.
ghost use Rattle.std.specs.Prelude.{◌≡◌, ◌*◌, ◌<◌};
ghost use Rattle.counts.specs.Totals.{position_of, total_count};

/// How often the threads of a run did each thing that is counted, all together.
#[derive(Clone, Copy, Debug, PartialEq, Eq)]
pub struct Tally {
    pub lets: u64,
    pub claims: u64,
    pub finishes: u64,
    pub stale: u64,
    pub loads: u64,
    pub retires: u64,
    pub squashes: u64,
    pub mends: u64,
    /// Claims of a job at a station that came as a hint.
    pub hints: u64,
    /// How often the core was renewed, since all tags of a station were spent.
    pub renewals: u64,
}

/// One number of a tally.
#[derive(Clone, Copy, Debug, PartialEq, Eq)]
pub enum Total {
    Lets,
    Claims,
    Finishes,
    Stale,
    Loads,
    Retires,
    Squashes,
    Mends,
    Hints,
    Renewals,
}

impl Total {
    // The word of the total: each total has a line of the cache to itself.
    pub(crate) fn word(self) -> usize
        ensures value { result ≡ 8 * position_of self }
        ensures inside { result < 8 * total_count }
    {
        match self {
            Total::Lets => 0,
            Total::Claims => 8,
            Total::Finishes => 16,
            Total::Stale => 24,
            Total::Loads => 32,
            Total::Retires => 40,
            Total::Squashes => 48,
            Total::Mends => 56,
            Total::Hints => 64,
            Total::Renewals => 72,
        }
    }
}
