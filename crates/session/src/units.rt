//! The units of a session, and the jobs that they hold.
ghost use Rattle.std.specs.Prelude.{◌≡◌, ◌<◌, IfOk, None, Some, slice_set, vec_len};
ghost use Rattle.station.specs.Seats.{IsSameSeat};
ghost use Rattle.session.specs.Rows.{IsHolder};
ghost use Rattle.session.specs.Workers.{AreAtWork, AreWorkers, HasNone, IsAtWork, IsWorker, claim_of, held_job, job_at, job_from, station_held, worker_at};
ghost use Rattle.session.specs.declared.units.UnitJob.{UnitJob};

use crate::names::UNITS;
use core::mem::replace_with;
use instructions::{Half, Memory};
use station::{Claim, Core, Job, Source, UnitSeat, abandon};
use std::alloc::Global;

/// What is told of a job.
#[derive(Clone, Copy)]
pub struct Held {
    pub station: usize,
    pub tag: u32,
    pub index: u32,
    pub half: Half,
    pub pc: u32,
    pub predicted: u32,
    pub a: u32,
    pub b: u32,
}

/// The answer of a claim.
#[derive(Clone, Copy)]
pub enum Claimed {
    Job(Held),
    NotOpen,
    Waiting { tag: u32, k: Source },
    Moved { tag: u32 },
}

/// A unit: its seat, and the job that it has claimed and not finished.
pub struct UnitJob {
    pub(crate) seat: UnitSeat,
    pub(crate) job: Option<Job>,
}

/// The station of the job that the unit at a place holds, if it was made and holds one.
pub(crate) fn held_station(units: &Vec<Option<UnitJob>>, unit: usize) -> Option<usize>
    requires { unit < vec_len units.now }
    ensures { result ≡ station_held units.now.items unit }
{
    match &units[unit] {
        Some(
            UnitJob {
                seat: _,
                job: Some(job),
            },
        ) => Some(job.station()),
        _ => None,
    }
}

/// The unit that holds a job of the tenant with this tag at a station.
pub(crate) fn holder(units: &Vec<Option<UnitJob>>, station: usize, tag: u32) -> Option<usize>
    ensures { IsHolder units.now.items station tag result }
{
    for at in 0..units.len() {
        match &units[at] {
            Some(
                UnitJob {
                    seat: _,
                    job: Some(job),
                },
            ) if job.station() == station && job.tag() == tag => return Some(at),
            _ => {}
        }
    }
    None
}

/// A place for each unit, none of which is made.
#[tactic(auto, using(crate::proofs::Workers::push_none))]
pub(crate) fn no_units(alloc: Global) -> Result<Vec<Option<UnitJob>>, Memory>
    ensures places { IfOk result (λ units. vec_len units ≡ 64) }
    ensures none { IfOk result (λ units. HasNone units.items) }
{
    let mut units = Vec::new(alloc);
    if units.reserve(UNITS).is_err() {
        units.destroy_empty();
        return Err(Memory);
    }
    for _ in 0..UNITS {
        units.push_reserved(None);
    }
    Ok(units)
}

// A unit is no more, and its job with it.
fn give_up(worker: UnitJob)
    requires { IsAtWork worker }
{
    let UnitJob { seat, job } = worker;
    if let Some(job) = job {
        abandon(seat, job);
    }
}

/// No unit is made any more.
pub(crate) fn forget_units(units: &mut Vec<Option<UnitJob>>)
    requires { AreAtWork units.old.items }
    ensures places { vec_len units.new ≡ vec_len units.old }
    ensures none { HasNone units.new.items }
{
    for at in 0..units.len() {
        if let Some(worker) = units[at].take() {
            give_up(worker);
        }
    }
}

/// The units are no more.
pub(crate) fn end_units(units: Vec<Option<UnitJob>>)
    requires { AreAtWork units.items }
{
    let mut units = units;
    while let Some(unit) = units.pop() {
        if let Some(worker) = unit {
            give_up(worker);
        }
    }
    units.destroy_empty();
}

fn part(seat: UnitSeat, core: &Core) -> (UnitSeat, UnitSeat)
    requires { seat.core ≡ core.now }
    ensures kept { IsSameSeat seat result.0 }
    ensures history { result.0.seen ≡ seat.seen }
    ensures other { result.1.core ≡ core.now }
{
    core.split(seat)
}

/// Takes the unit at a place, which is made if it is not there yet.
pub(crate) fn take_worker(
    core: &Core,
    all: &mut UnitSeat,
    units: &mut Vec<Option<UnitJob>>,
    unit: usize,
) -> UnitJob
    requires all { all.old.core ≡ core.now }
    requires unit { unit < vec_len units.old }
    requires workers { AreWorkers core.now units.old.items }
    ensures all { IsSameSeat all.old all.new }
    ensures history { all.new.seen ≡ all.old.seen }
    ensures worker { IsWorker core.now result }
    ensures job { result.job ≡ job_at units.old.items unit }
    ensures same { (w : UnitJob) → worker_at units.old.items unit ≡ Some w → result ≡ w }
    ensures place { units.new.items ≡ slice_set units.old.items unit None }
{
    match units[unit].take() {
        Some(worker) => worker,
        None => UnitJob {
            seat: replace_with(all, core, part),
            job: None,
        },
    }
}

/// Puts a unit to its place, where none is.
pub(crate) fn put_worker(units: &mut Vec<Option<UnitJob>>, unit: usize, worker: UnitJob)
    requires unit { unit < vec_len units.old }
    requires free { worker_at units.old.items unit ≡ None }
    ensures { units.new.items ≡ slice_set units.old.items unit (Some worker) }
{
    if let Some(other) = units[unit].replace(worker) {
        give_up(other);
    }
}

// What a job says.
fn fields_of(job: &Job) -> Held
    ensures { held_job result ≡ job.now }
{
    Held {
        station: job.station(),
        tag: job.tag(),
        index: job.index(),
        half: job.half(),
        pc: job.pc(),
        predicted: job.predicted(),
        a: job.a(),
        b: job.b(),
    }
}

/// The answer of a claim, and its job.
pub(crate) fn answer_of(claim: Claim) -> (Claimed, Option<Job>)
    ensures answer { claim_of result.0 ≡ claim }
    ensures job { result.1 ≡ job_from result.0 }
{
    match claim {
        Claim::Job(job) => (Claimed::Job(fields_of(&job)), Some(job)),
        Claim::NotOpen => (Claimed::NotOpen, None),
        Claim::Waiting { tag, k } => (Claimed::Waiting { tag, k }, None),
        Claim::Moved { tag } => (Claimed::Moved { tag }, None),
    }
}

/// The seat of a unit that holds no job.
pub(crate) fn free_seat(worker: UnitJob) -> UnitSeat
    requires { worker.job ≡ None }
    ensures { result ≡ worker.seat }
{
    let UnitJob { seat, job } = worker;
    match job {
        None => seat,
        Some(job) => {
            abandon(seat, job);
            unreachable!()
        }
    }
}
