//! Recovery from a miss.
ghost use Rattle.std.specs.Prelude.{◌≡◌, ◌≤◌, ◌+◌, ◌*◌, [], length, take};
ghost use Rattle.inorder.specs.History.{IsLegal, front};
ghost use Rattle.inorder.specs.OneHistory.{Adds};
ghost use Rattle.front.specs.CreateTable.{IsTouched};
ghost use Rattle.front.specs.Fronts.{AddsNothing, KnowsPath, KnowsTable};
ghost use Rattle.front.specs.Recoveries.{ScanFinds, IsCut, IsMissAt, RecoverAnswers, squashed_by};
ghost use Rattle.station.specs.Seats.{IsSameSeat};

use crate::answers::Recovery;
use crate::path::{CountedTable, Path};
use station::{Core, FrontSeat, StationState};

/// A miss: the position of its record, its station, and where it goes on.
#[derive(Clone, Copy)]
pub struct Missed {
    pub at: usize,
    pub station: usize,
    pub next: u32,
}

// Finds the oldest miss, from the oldest tenant on. Only jumps can miss, so only their stations are looked at.
fn find_miss(core: &Core, seat: &mut FrontSeat, path: &Path) -> Option<Missed>
    requires least { 2 ≤ core.now.sizes.ring }
    requires core { seat.old.core ≡ core.now }
    requires by { seat.old.by ≡ front }
    requires legal { IsLegal core.now.program core.now.sizes seat.old.seen }
    requires knows { KnowsPath core.now seat.old.seen path.now }
    ensures kept { IsSameSeat seat.old seat.new }
    ensures history { AddsNothing core.now seat.old.seen seat.new.seen }
    ensures reply { ScanFinds core.now.program core.now.sizes
        seat.old.seen seat.new.seen path.now.records result }
{
    for at in 0..path.records.len() {
        let Some(record) = path.records.at(at) else {
            continue;
        };
        if !record.may_miss() {
            continue;
        }
        let seen = core.look(seat, record.station);
        if let StationState::Miss = seen.state {
            return Some(Missed {
                at,
                station: record.station,
                next: seen.value,
            });
        }
    }
    None
}

// Squashes the youngest tenants until the miss is the youngest, and gives the number of squashes.
fn squash_behind(
    core: &Core,
    seat: &mut FrontSeat,
    path: &mut Path,
    creators: &mut CountedTable,
    missed: Missed,
) -> usize
    requires core { seat.old.core ≡ core.now }
    requires by { seat.old.by ≡ front }
    requires legal { IsLegal core.now.program core.now.sizes seat.old.seen }
    requires knows { KnowsPath core.now seat.old.seen path.old }
    requires table { KnowsTable core.now seat.old.seen path.old.base creators.old }
    requires miss { IsMissAt core.now.program core.now.sizes seat.old.seen path.old.records missed }
    ensures kept { IsSameSeat seat.old seat.new }
    ensures history { IsCut core.now.program core.now.sizes seat.old.seen seat.new.seen result }
    ensures base { path.new.base ≡ path.old.base }
    ensures knows { KnowsPath core.now seat.new.seen path.new }
    ensures miss { IsMissAt core.now.program core.now.sizes seat.new.seen path.new.records missed }
    ensures last { length path.new.records ≡ missed.at + 1 }
    ensures records { path.new.records ≡ take (missed.at + 1) path.old.records }
    ensures table { KnowsTable core.now seat.new.seen path.new.base creators.new }
    ensures touched { IsTouched (2 * result) creators.old.touched creators.new.touched }
{
    let all = path.records.len();
    while path.records.len() > missed.at + 1 {
        let (station, _) = core.squash(seat);
        path.records.pop();
        creators.restore(station);
    }
    all - path.records.len()
}

/// Recovers from the oldest miss, if there is one.
pub fn recover_on(
    core: &Core,
    seat: &mut FrontSeat,
    path: &mut Path,
    creators: &mut CountedTable,
) -> Recovery
    requires core { seat.old.core ≡ core.now }
    requires by { seat.old.by ≡ front }
    requires legal { IsLegal core.now.program core.now.sizes seat.old.seen }
    requires knows { KnowsPath core.now seat.old.seen path.old }
    requires table { KnowsTable core.now seat.old.seen path.old.base creators.old }
    ensures kept { IsSameSeat seat.old seat.new }
    ensures reply { RecoverAnswers core.now.program core.now.sizes
        seat.old.seen seat.new.seen result }
    ensures base { path.new.base ≡ path.old.base }
    ensures knows { KnowsPath core.now seat.new.seen path.new }
    ensures table { KnowsTable core.now seat.new.seen path.new.base creators.new }
    ensures touched { IsTouched (2 * squashed_by result) creators.old.touched creators.new.touched }
{
    // for the proof: a ring has 2 to 32 stations
    core.ring();
    let Some(missed) = find_miss(core, seat, path) else {
        return Recovery::NoMiss;
    };
    let squashed = squash_behind(core, seat, path, creators, missed);
    core.mend(seat, missed.station);
    path.records.redirect(missed.next);
    Recovery::Mended {
        station: missed.station,
        squashed,
    }
}
