//! Calls by who has all seats of a core. After each it is known what was done, to the letter, since
//! nobody else can have done anything.
ghost use Rattle.std.specs.Prelude.{◌≡◌, ◌<◌};
ghost use Rattle.inorder.specs.History.{front};
ghost use Rattle.station.specs.Writeback.{job_outcome};
ghost use Rattle.client.specs.Done.{HoldsNext, InAll, IsAskedNext, IsClaimedNext, IsFinishedNext, IsLetNext, CallLeads, MayAskNext, MayLetNext};
ghost use Rattle.client.specs.ByHand.{AreAll, HaveMetTwice};

use crate::seats::{Seats, gather};
use instructions::Outcome;
use station::{Ask, Claim, Core, Finish, Job, Source, Tenant, jobs_stay, mays_stay};

// All meet, twice.
fn gather_twice(core: &Core, seats: &mut Seats)
    requires { AreAll core.now seats.old }
    ensures all { AreAll core.now seats.new }
    ensures met { HaveMetTwice core.now seats.old seats.new }
{
    gather(core, seats);
    gather(core, seats);
}

/// Lets the next tenant out, and gives its tag.
pub(crate) fn let_next(core: &Core, seats: &mut Seats, tenant: Tenant) -> u32
    requires all { AreAll core.now seats.old }
    requires may { InAll core.now seats.old (MayLetNext core.now tenant) }
    ensures all { AreAll core.now seats.new }
    ensures done { CallLeads core.now seats.old seats.new front (IsLetNext core.now tenant result) }
{
    mays_stay();
    let tag = core.let_out(&mut seats.front, tenant);
    gather_twice(core, seats);
    tag
}

/// Asks for a source from its creator.
pub(crate) fn ask_next(
    core: &Core,
    seats: &mut Seats,
    station: usize,
    tag: u32,
    k: Source,
    from: (usize, u32),
) -> Ask
    requires all { AreAll core.now seats.old }
    requires station { station < core.now.sizes.ring }
    requires from { from.0 < core.now.sizes.ring }
    requires may { InAll core.now seats.old (MayAskNext core.now station tag k from) }
    ensures all { AreAll core.now seats.new }
    ensures done { CallLeads core.now seats.old seats.new front
        (IsAskedNext core.now station tag k from result) }
{
    mays_stay();
    let answer = core.ask(&mut seats.front, station, tag, k, from);
    gather_twice(core, seats);
    answer
}

/// The first unit claims at a station.
pub(crate) fn claim_next(core: &Core, seats: &mut Seats, station: usize) -> Claim
    requires all { AreAll core.now seats.old }
    requires station { station < core.now.sizes.ring }
    ensures all { AreAll core.now seats.new }
    ensures by { seats.new.one.by ≡ seats.old.one.by }
    ensures done { CallLeads core.now seats.old seats.new seats.old.one.by
        (IsClaimedNext core.now seats.old.one.by station result) }
{
    let answer = core.claim(&mut seats.one, station);
    gather_twice(core, seats);
    answer
}

/// The first unit finishes a job.
pub(crate) fn finish_next(core: &Core, seats: &mut Seats, job: Job, outcome: Outcome) -> Finish
    requires all { AreAll core.now seats.old }
    requires job { InAll core.now seats.old (HoldsNext core.now seats.old.one.by job) }
    requires outcome { outcome ≡ job_outcome core.now.program job }
    ensures all { AreAll core.now seats.new }
    ensures done { CallLeads core.now seats.old seats.new seats.old.one.by
        (IsFinishedNext core.now seats.old.one.by job result) }
{
    jobs_stay();
    let answer = core.finish(&mut seats.one, job, outcome);
    gather_twice(core, seats);
    answer
}
