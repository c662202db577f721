//! What a let needs: room in the queue, its sources, and who leaves its station.
ghost use Rattle.std.specs.Prelude.{◌≡◌, ◌<◌, ◌≤◌, []};
ghost use Rattle.inorder.specs.History.{IsLegal, front, unit_of};
ghost use Rattle.inorder.specs.OneHistory.{Adds};
ghost use Rattle.front.specs.CreateTable.{IsSupplied, IsTouched};
ghost use Rattle.front.specs.Fronts.{AddsNothing, KnowsPath};
ghost use Rattle.front.specs.Queues.{AccessBefore, QueueSays};
ghost use Rattle.front.specs.Training.{leaver_of};
ghost use Rattle.station.specs.Seats.{IsSameSeat};

use crate::path::{CountedTable, Path, Record, Records};
use instructions::{Instr, Leaver, Reg};
use station::{Core, FrontSeat, StationState, Supply};

// The load or store that has `younger` younger ones.
fn access_before(records: &Records, younger: usize) -> Option<Record>
    ensures { AccessBefore records.now younger result }
{
    let mut remaining = younger;
    let mut j = records.len();
    while 0 < j {
        j -= 1;
        if let Some(record) = records.at(j) {
            if record.access {
                if remaining == 0 {
                    return Some(record);
                }
                remaining -= 1;
            }
        }
    }
    None
}

/// The instruction is a load or store, and as many are live as the queue takes: the oldest of these has not left. One
/// look at it is enough, since tenants leave in order.
pub fn queue_is_full(core: &Core, seat: &mut FrontSeat, path: &Path, instr: &Instr) -> bool
    requires core { seat.old.core ≡ core.now }
    requires by { seat.old.by ≡ front }
    requires legal { IsLegal core.now.program core.now.sizes seat.old.seen }
    requires least { 2 ≤ core.now.sizes.ring }
    requires knows { KnowsPath core.now seat.old.seen path.now }
    ensures kept { IsSameSeat seat.old seat.new }
    ensures history { AddsNothing core.now seat.old.seen seat.new.seen }
    ensures reply { QueueSays core.now.program core.now.sizes
        (unit_of core.now.program core.now.sizes seat.new.seen) instr.now result }
{
    if !instr.op().is_access() {
        return false;
    }
    let queue = core.queue();
    let Some(record) = access_before(&path.records, queue - 1) else {
        return false;
    };
    let seen = core.look(seat, record.station);
    if let StationState::Free = seen.state {
        return false;
    }
    true
}

/// The source of a new tenant that reads this register. The last tenant of its own station leaves.
pub fn supply(path: &Path, creators: &mut CountedTable, own: usize, r: Reg) -> Supply
    ensures value { IsSupplied creators.old.table own path.now.base r result }
    ensures table { creators.new.table ≡ creators.old.table }
    ensures small { r < 34 }
    ensures touched { IsTouched 2 creators.old.touched creators.new.touched }
{
    let known = Supply::Known(path.base.registers[r.number() as usize]);
    let Some(creator) = creators.find(r) else {
        return known;
    };
    if creator.station == own {
        return known;
    }
    match creator.made {
        Some(value) => Supply::Known(value),
        None => Supply::From {
            station: creator.station,
            tag: creator.tag,
        },
    }
}

/// The leaver that the predictor is told of, if it was asked about the tenant that leaves.
pub fn leaver(departed: Option<Record>) -> Option<Leaver>
    ensures { result ≡ leaver_of departed }
{
    departed?.leaver()
}
