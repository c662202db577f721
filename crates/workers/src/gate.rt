//! The watcher of a run: it may hold units, and is given snapshots and tallies.
ghost use Rattle.std.specs.Prelude.{◌≡◌, false};

use counts::Tally;
use snapshots::Snap;

/// Watches a run from all its threads. Units and places are numbered from 1. That a run asks and tells it so is tested, and
/// in no clause.
pub trait Gate {
    /// Whether the unit is held. Asked between its claim and its finish, again and again while that is
    /// true and the unit has turns left.
    fn held(&self, unit: u32, station: u32) -> bool;

    /// Called with each snapshot that is taken.
    fn seen(&self, place: u32, snap: &Snap);

    /// Called with the tally each time that the commit thread shows a snapshot, whose n is the number of retirements.
    fn counted(&self, tally: &Tally);
}

/// The gate that holds no unit, and looks at nothing.
#[derive(Drop)]
pub struct Open;

impl Gate for Open {
    fn held(&self, _unit: u32, _station: u32) -> bool
        ensures { result ≡ false }
    {
        false
    }

    fn seen(&self, _place: u32, _snap: &Snap) {}

    fn counted(&self, _tally: &Tally) {}
}
