//! Coming to rest: all tenants of the path have left.
ghost use Rattle.std.specs.Prelude.{◌≡◌, ◌≤◌, [], ◌∷◌, IfSome};
ghost use Rattle.inorder.specs.History.{IsLegal, front, unit_of};
ghost use Rattle.inorder.specs.OneHistory.{Adds};
ghost use Rattle.front.specs.Folding.{IsFolding, LeavesRecords};
ghost use Rattle.front.specs.Fronts.{AddsNothing, KnowsPath, KnowsTable};
ghost use Rattle.front.specs.Path.{rested_at};
ghost use Rattle.front.specs.Rests.{RestAnswers, TellsRecords, trained_after};
ghost use Rattle.station.specs.Seats.{IsSameSeat};
ghost use Rattle.station.specs.Renewals.{HasNobody};

use crate::answers::Rest;
use crate::path::{Creators, Path};
use instructions::{Predictor, tell};
use station::{Core, FrontSeat, StationState};
use std::snapshot::Snapshot;

// Drops all records, the oldest first: values go into the base registers, and the predictor is trained.
fn fold_all<P: Predictor>(core: &Core, seat: &mut FrontSeat, path: &mut Path, predictor: &mut P)
    requires core { seat.old.core ≡ core.now }
    requires by { seat.old.by ≡ front }
    requires legal { IsLegal core.now.program core.now.sizes seat.old.seen }
    requires least { 2 ≤ core.now.sizes.ring }
    requires folding { IsFolding core.now seat.old.seen path.old }
    requires nobody { HasNobody (unit_of core.now.program core.now.sizes seat.old.seen) }
    ensures kept { IsSameSeat seat.old seat.new }
    ensures history { AddsNothing core.now seat.old.seen seat.new.seen }
    ensures folding { IsFolding core.now seat.new.seen path.new }
    ensures none { path.new.records ≡ [] }
    ensures tells { TellsRecords P.Learns path.old.records predictor.old predictor.new }
{
    while let Some(oldest) = path.records.at(0) {
        let seen = core.look(seat, oldest.station);
        path.fold(seen.value);
        let leaver = oldest.leaver();
        tell(predictor, leaver);
    }
}

/// Rests if nobody is in flight. Tenants leave in order, so one look at the youngest tells.
pub fn rest_on<P: Predictor>(
    core: &Core,
    seat: &mut FrontSeat,
    path: &mut Path,
    creators: &mut Creators,
    predictor: &mut P,
) -> Rest
    requires core { seat.old.core ≡ core.now }
    requires by { seat.old.by ≡ front }
    requires legal { IsLegal core.now.program core.now.sizes seat.old.seen }
    requires knows { KnowsPath core.now seat.old.seen path.old }
    requires table { KnowsTable core.now seat.old.seen path.old.base creators.old.counted }
    ensures kept { IsSameSeat seat.old seat.new }
    ensures reply { RestAnswers P.Learns core.now.program core.now.sizes
        (rested_at path.old.base) seat.old.seen seat.new.seen predictor.old predictor.new result }
    ensures trained_upto { rested_at path.new.base ≡ trained_after core.now.program core.now.sizes
        (rested_at path.old.base) seat.new.seen result }
    ensures records { LeavesRecords result path.old.records path.new.records }
    ensures knows { KnowsPath core.now seat.new.seen path.new }
    ensures table { KnowsTable core.now seat.new.seen path.new.base creators.new.counted }
    ensures touched { creators.new.counted.touched ≡ creators.old.counted.touched }
{
    let ring = core.ring();
    if let Some(youngest) = path.records.last() {
        let seen = core.look(seat, youngest.station);
        let StationState::Free = seen.state else {
            return Rest::Live;
        };
    }
    path.keep_front(ring);
    fold_all(core, seat, path, predictor);
    path.base.rested = Snapshot::of(seat);
    creators.forget();
    Rest::Idle
}
