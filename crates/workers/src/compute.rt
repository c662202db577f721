//! The work of a unit thread.
ghost use Rattle.std.specs.Prelude.{◌≡◌, ◌<◌, ◌≤◌, ◌^◌, false};
ghost use Rattle.inorder.specs.History.{IsLegal};
ghost use Rattle.station.specs.Claiming.{ClaimAnswers, Holds};
ghost use Rattle.station.specs.Seats.{IsSameSeat};
ghost use Rattle.workers.specs.Deeds.{HasAddedDeeds, HasDone, HasFinishedAll, total_of_claim, total_of_finish};
ghost use Rattle.workers.specs.Hinting.{AsksOnce, HintsWoken, OffersWoken, candidate_station};
ghost use Rattle.workers.specs.Turns.{TurnsAreTaken};
ghost use Rattle.workers.specs.Units.{HasCountedDeeds, Works};

use crate::bounds::Bounds;
use crate::gate::Gate;
use crate::hinting::hint_each;
use crate::search::Candidate;
use crate::shared::TermShared;
use crate::turns::Turns;
use crate::unit::{Unit, Worker};
use counts::Total;
use hints::Ring;
use station::{Claim, Core, Finish, Job, UnitSeat, a_job_is_of_the_program};
use std::sync::Wait;
use std::thread::yield_now;

// Claims at the station of a candidate.
fn claim(core: &Core, seat: &mut UnitSeat, candidate: Candidate) -> Claim
    requires core { seat.old.core ≡ core.now }
    requires station { candidate_station candidate < core.now.sizes.ring }
    ensures kept { IsSameSeat seat.old seat.new }
    ensures reply { ClaimAnswers core.now.program core.now.sizes
        seat.old.by seat.old.seen seat.new.seen (candidate_station candidate) result }
    ensures done { HasDone seat.old.by seat.old.seen seat.new.seen (total_of_claim result) }
{
    let station = candidate.station();
    core.claim(seat, station)
}

// Computes a claimed tenant, and writes its outcome.
fn compute(core: &Core, seat: &mut UnitSeat, job: Job) -> Finish
    requires core { seat.old.core ≡ core.now }
    requires job { Holds core.now.program core.now.sizes seat.old.by seat.old.seen job }
    requires legal { IsLegal core.now.program core.now.sizes seat.old.seen }
    ensures kept { IsSameSeat seat.old seat.new }
    ensures done { HasDone seat.old.by seat.old.seen seat.new.seen (total_of_finish result) }
{
    a_job_is_of_the_program();
    let result = job.outcome(core.program());
    core.finish(seat, job, result)
}

// Asks the gate whether the unit is held at the station of its job.
fn is_held<G: Gate>(gate: &G, unit: &Unit, job: &Job, number: u32, station: u32) -> bool
    requires number { number ≡ unit.now.number }
    requires station { station ≡ job.now.station }
{
    gate.held(number, station)
}

// Waits while the gate holds the unit that has this job, and the unit has turns left, of which each question takes one.
// Another unit is active meanwhile. True where the unit was held.
fn wait_at<K: Bounds + Ring, G: Gate, R>(
    shared: &TermShared<'_, K, G, R>,
    unit: &Unit,
    job: &Job,
    turns: &mut Turns,
) -> bool
    requires { job.now.station < 2 ^ 32 }
    ensures turns { TurnsAreTaken turns.old turns.new }
    ensures held { result ≡ false → turns.new.left ≡ turns.old.left }
{
    let (gate, state) = (shared.gate, shared.state);
    let (number, station) = (unit.number, job.station() as u32);
    let mut was_held = false;
    'questions: while is_held(gate, unit, job, number, station)
        && !state.is_term_over()
        && turns.take()
    {
        if !was_held {
            state.activate();
            was_held = true;
        }
        yield_now();
    }
    was_held
}

// Finishes a job, counts the finish, and hints the stations that its result woke.
fn finish<K: Bounds + Ring, G, R: Wait>(
    shared: &TermShared<'_, K, G, R>,
    unit: &mut Unit,
    job: Job,
) -> Finish
    requires works { Works shared.now.core.now shared.now.state.now.counts
        shared.now.state.now.hints unit.old }
    requires job { Holds shared.now.core.now.program shared.now.core.now.sizes
        unit.old.seat.by unit.old.seat.seen job }
    requires legal { IsLegal shared.now.core.now.program shared.now.core.now.sizes
        unit.old.seat.seen }
    ensures works { Works shared.now.core.now shared.now.state.now.counts
        shared.now.state.now.hints unit.new }
    ensures counted { HasCountedDeeds unit.old unit.new }
    ensures done { HasDone unit.old.seat.by unit.old.seat.seen unit.new.seat.seen
        (total_of_finish result) }
    ensures hinted { HintsWoken shared.now.core.now.sizes.ring unit.new.seat.woken result
        unit.old.search.hinter unit.new.search.hinter }
    ensures offers { OffersWoken shared.now.core.now.sizes.ring unit.new.seat.woken
        unit.old.search.hinter unit.new.search.hinter }
    ensures asks { unit.new.search.hinter.asked ≡ unit.old.search.hinter.asked }
{
    if let Finish::Stale = compute(shared.core, &mut unit.seat, job) {
        unit.count.count(&shared.state.counts, Total::Stale, 1);
        return Finish::Stale;
    }
    unit.count.count(&shared.state.counts, Total::Finishes, 1);
    let woken = unit.seat.woken();
    hint_each(
        shared.wait,
        &shared.state.hints,
        &mut unit.search.hinter,
        shared.core.ring(),
        woken,
    );
    Finish::Finished
}

// Claims at one station and finishes the job that is there, or backs off without a job. True where the gate held the
// unit, which takes a turn for each time.
fn claim_and_finish<K: Bounds + Ring, G: Gate, R: Wait>(
    shared: &TermShared<'_, K, G, R>,
    unit: &mut Unit,
    turns: &mut Turns,
) -> bool
    requires { Works shared.now.core.now shared.now.state.now.counts
        shared.now.state.now.hints unit.old }
    ensures works { Works shared.now.core.now shared.now.state.now.counts
        shared.now.state.now.hints unit.new }
    ensures counted { HasCountedDeeds unit.old unit.new }
    ensures finished { HasFinishedAll unit.old.seat.by unit.old.seat.seen unit.new.seat.seen }
    ensures asks { AsksOnce unit.old.search unit.new.search }
    ensures offers { OffersWoken shared.now.core.now.sizes.ring unit.new.seat.woken
        unit.old.search.hinter unit.new.search.hinter }
    ensures turns { TurnsAreTaken turns.old turns.new }
    ensures held { result ≡ false → turns.new.left ≡ turns.old.left }
{
    let candidate = unit
        .search
        .next(shared.wait, &shared.state.hints, shared.core.ring());
    let job = match claim(shared.core, &mut unit.seat, candidate) {
        Claim::Job(job) => job,
        Claim::NotOpen | Claim::Waiting { tag: _, k: _ } | Claim::Moved { tag: _ } => {
            unit.back_off(candidate);
            return false;
        }
    };
    unit.count_claim(shared, candidate);
    let was_held = wait_at(shared, unit, &job, turns);
    let _finished = finish(shared, unit, job);
    was_held
}

// Takes turns until the term is over or none is left, which activates another unit.
fn take_turns<K: Bounds + Ring, G: Gate, R: Wait>(
    shared: &TermShared<'_, K, G, R>,
    unit: &mut Unit,
    turns: &mut Turns,
)
    requires { Works shared.now.core.now shared.now.state.now.counts
        shared.now.state.now.hints unit.old }
    ensures works { Works shared.now.core.now shared.now.state.now.counts
        shared.now.state.now.hints unit.new }
    ensures counted { HasCountedDeeds unit.old unit.new }
    ensures finished { HasFinishedAll unit.old.seat.by unit.old.seat.seen unit.new.seat.seen }
    ensures turns { TurnsAreTaken turns.old turns.new }
{
    'turns: while !shared.state.is_term_over() {
        if !turns.take() {
            shared.state.activate();
            return;
        }
        let _was_held = claim_and_finish(shared, unit, turns);
    }
}

// Works with the turns of the unit. All that it has done is in the totals then.
fn work_with<K: Bounds + Ring, G: Gate, R: Wait>(
    shared: &TermShared<'_, K, G, R>,
    worker: Worker,
    turns: &mut Turns,
) -> Worker
    requires core { worker.seat.core ≡ shared.now.core.now }
    requires count { worker.count.of ≡ shared.now.state.now.counts }
    ensures added { HasAddedDeeds worker result }
    ensures finished { HasFinishedAll worker.seat.by worker.seat.seen result.seat.seen }
    ensures turns { TurnsAreTaken turns.old turns.new }
{
    let mut unit = Unit::enter(shared, worker);
    take_turns(shared, &mut unit, turns);
    unit.stop(shared)
}

/// Waits until the unit is active, looks for work at the stations that are hinted, and without a hint in ring order,
/// one a turn, and finishes each job that it has claimed.
pub(crate) fn work<K: Bounds + Ring, G: Gate, R: Wait>(
    shared: &TermShared<'_, K, G, R>,
    worker: Worker,
) -> Worker
    requires core { worker.seat.core ≡ shared.now.core.now }
    requires count { worker.count.of ≡ shared.now.state.now.counts }
    requires first { 1 ≤ worker.number }
    requires last { worker.number ≤ shared.now.state.now.units }
    ensures added { HasAddedDeeds worker result }
    ensures finished { HasFinishedAll worker.seat.by worker.seat.seen result.seat.seen }
{
    let state = shared.state;
    state.wait_until_active(shared.wait, worker.number);
    let mut turns = state.turns_of(worker.number).lock(shared.wait);
    work_with(shared, worker, &mut *turns)
}
