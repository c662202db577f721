//! Readers of snapshots.
ghost use Rattle.std.specs.Prelude.{◌≡◌, ◌≤◌, max, IfOk, IfSome, OnErr};
ghost use Rattle.left_right.specs.Sides.{view};
ghost use Rattle.snapshots.specs.Snapshots.{IsSnapshotOf};

use crate::mark::Mark;
use crate::rule::{OfProgram, Sees, SnapReader};
use crate::snap::Snap;
use core::mem::replace_with;
use std::marker::Model;
use thiserror::Error;

/// No snapshot was taken. The publisher has ended, and no later try gives one; or a mark was learnt that is later than
/// all that this publisher has shown, as one of another publisher: then a later try may give one.
#[derive(Clone, Copy, Debug, Drop, PartialEq, Eq, Error)]
#[error("the publisher has ended")]
pub struct Gone;

/// No place was free for another snapper. One may be free at the next try.
#[derive(Clone, Copy, Debug, Drop, PartialEq, Eq, Error)]
#[error("no snapshot place is free")]
pub struct NoPlace(());

/// Takes the newest snapshot, with no lock. To a contract it is the greatest n that it has seen: of
/// the snapshots that it took and of the marks that it learnt.
#[derive(Drop)]
pub struct Snapper<J: OfProgram> {
    // none where no place was found for the first one
    reader: Option<SnapReader<J>>,
    // the greatest mark
    floor: u64,
}

impl<J: OfProgram> Model for Snapper<J> {
    ghost use Rattle.std.specs.Prelude.{ℕ, max};
    ghost use Rattle.std.specs.Option.{option_map_or};
    ghost use Rattle.left_right.specs.Sides.{view as seen_by};

    ghost Value = { ℕ };

    ghost view = { λ s. max (option_map_or (λ reader. seen_by reader.place) s.reader 0) s.floor };
}

// Takes a snapshot that is not below the floor. The rule keeps it from being below what the reader
// has seen, but knows nothing of marks.
fn read<J: OfProgram>(reader: SnapReader<J>, floor: u64) -> (SnapReader<J>, Result<Snap, Gone>)
    ensures ok { IfOk result.1 (λ snap. IsSnapshotOf J.program snap) }
    ensures later { IfOk result.1 (λ snap. max (view reader.place) floor ≤ snap.n) }
    ensures seen { IfOk result.1 (λ snap. max (view result.0.place) floor ≡ snap.n) }
    ensures err { OnErr result.1 (max (view result.0.place) floor ≡ max (view reader.place) floor) }
{
    match reader.enter_as::<Sees<J>>() {
        Ok(reading) => {
            let snap = *reading.get();
            let reader = reading.leave();
            if snap.n < floor {
                (reader, Err(Gone))
            } else {
                (reader, Ok(snap))
            }
        }
        Err(reader) => (reader, Err(Gone)),
    }
}

impl<J: OfProgram> Snapper<J> {
    pub(crate) fn of(reader: Option<SnapReader<J>>) -> Snapper<J>
        requires { IfSome reader (λ reader. view reader.place ≡ 0) }
        ensures { result ≡ 0 }
    {
        Snapper { reader, floor: 0 }
    }

    /// Takes the snapshot that is published at one moment of the call. Waits for nobody.
    pub fn take(&mut self) -> Result<Snap, Gone>
        ensures ok { IfOk result (λ snap. IsSnapshotOf J.program snap) }
        ensures later { IfOk result (λ snap. self.old ≤ snap.n) }
        ensures seen { IfOk result (λ snap. self.new ≡ snap.n) }
        ensures err { OnErr result (self.new ≡ self.old) }
    {
        match &mut self.reader {
            Some(reader) => replace_with(reader, self.floor, read::<J>),
            None => Err(Gone),
        }
    }

    /// From now on this snapper takes no snapshot older than the mark's. Learn only marks of its own publisher: until that
    /// one has shown something as late, `take` answers `Gone`.
    pub fn learn(&mut self, mark: &Mark)
        ensures { self.new ≡ max self.old mark.now.n }
    {
        self.floor = self.floor.max(mark.n);
    }

    /// Another snapper of the same publisher, which has seen nothing.
    pub fn another(&mut self) -> Result<Snapper<J>, NoPlace>
        ensures ok { IfOk result (λ snapper. snapper ≡ 0) }
        ensures kept { self.new ≡ self.old }
    {
        let Some(reader) = &self.reader else {
            return Err(NoPlace(()));
        };
        match reader.factory().reader() {
            Ok(reader) => Ok(Snapper::of(Some(reader))),
            Err(_) => Err(NoPlace(())),
        }
    }
}
