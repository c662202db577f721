//! A tally as text, after a run and during it.
ghost use Rattle.std.specs.Prelude.{Some};
ghost use Rattle.command_line.specs.Exits.{progress_text, totals_text};

use counts::Tally;
use std::fmt;

/// The numbers of a tally. Their `Display` tells each after its name.
#[derive(Drop)]
pub(crate) struct Totals {
    pub tally: Tally,
}

impl fmt::Display for Totals {
    ghost output = { λ totals. Some (totals_text totals.tally) };

    fn fmt<W: fmt::Write>(&self, f: &mut fmt::Formatter<W>) -> fmt::Result {
        let tally = self.tally;
        write!(
            f,
            "lets {} claims {} finishes {} stale {} loads {} retires {} squashes {} mends {} hints {} \
             renewals {}",
            tally.lets,
            tally.claims,
            tally.finishes,
            tally.stale,
            tally.loads,
            tally.retires,
            tally.squashes,
            tally.mends,
            tally.hints,
            tally.renewals,
        )
    }
}

/// A tally of threads that run. Its `Display` is the line that tells it, without a line feed.
#[derive(Clone, Copy)]
pub struct Progress {
    pub tally: Tally,
}

impl fmt::Display for Progress {
    ghost output = { λ progress. Some (progress_text progress.tally) };

    fn fmt<W: fmt::Write>(&self, f: &mut fmt::Formatter<W>) -> fmt::Result {
        write!(f, "progress {}", Totals { tally: self.tally })
    }
}
