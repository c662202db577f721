//! A core that is worked on by hand: the front, the back, a snapper and a unit.
ghost use Rattle.std.specs.Prelude.{◌≡◌, ◌<◌, IfOk};
ghost use Rattle.back.specs.Backs.{HasRetiredNothing};
ghost use Rattle.station.specs.Claiming.{Holds};
ghost use Rattle.station.specs.Seats.{IsSameSeat};

use crate::same::same;
use back::{Back, OfProgram, Snapper};
use front::{Front, Turn};
use instructions::{Config, NotTaken, Outcome, Predictor, Program};
use isa::parse;
use station::{
    BackSeat, Claim, Core, Finish, Job, UnitSeat, a_job_is_of_the_program, what_is_seen_is_legal,
};
use std::alloc::Global;
use std::process::Abort;
use std::test::Fail;

pub fn made(
    alloc: Global,
    listing: &[u8],
    ring: u64,
    places: u64,
    first_tag: u64,
) -> Result<(Program, Config), Fail> {
    let program = parse(alloc, listing)?;
    let config = Config::new(ring, 2, 1, places, first_tag, 1_000, 1_000)?;
    Ok((program, config))
}

/// What a test begins with.
#[derive(Drop)]
pub struct Setup {
    pub alloc: Global,
    pub program: Program,
    pub config: Config,
}

pub fn set_up(
    alloc: Global,
    listing: &[u8],
    ring: u64,
    places: u64,
    first_tag: u64,
) -> Result<Setup, Fail> {
    let (program, config) = made(alloc, listing, ring, places, first_tag)?;
    Ok(Setup {
        alloc,
        program,
        config,
    })
}

pub fn let_at(station: usize, tag: u32, pc: u32) -> Turn {
    Turn::Let { station, tag, pc }
}

/// The front takes these turns.
pub fn takes<'a, P: Predictor + Drop>(
    rt: &impl Abort,
    core: &Core,
    front: &mut Front<'a, P>,
    turns: &[Turn],
)
    requires { front.old.core ≡ core.now }
    ensures { front.new.core ≡ core.now }
{
    for turn in turns {
        let taken = front.turn(core);
        same(rt, &taken, &*turn);
    }
}

/// What came of a job: its sources, its outcome, and the answer.
#[derive(Clone, Copy, Debug, PartialEq)]
pub struct Done {
    pub a: u32,
    pub b: u32,
    pub outcome: Outcome,
    pub finish: Finish,
}

pub fn finished(a: u32, b: u32, outcome: Outcome) -> Done {
    Done {
        a,
        b,
        outcome,
        finish: Finish::Finished,
    }
}

/// Finishes a job by its outcome.
pub fn finish_job(core: &Core, program: &Program, seat: &mut UnitSeat, job: Job) -> Done
    requires core { seat.old.core ≡ core.now }
    requires program { program.now ≡ core.now.program }
    requires job { Holds core.now.program core.now.sizes seat.old.by seat.old.seen job }
    ensures kept { IsSameSeat seat.old seat.new }
{
    what_is_seen_is_legal(seat);
    a_job_is_of_the_program();
    let outcome = job.outcome(program);
    let (a, b) = (job.a(), job.b());
    let finish = core.finish(seat, job, outcome);
    Done {
        a,
        b,
        outcome,
        finish,
    }
}

/// Claims the tenant of a station and finishes it.
pub fn work(core: &Core, program: &Program, seat: &mut UnitSeat, station: usize) -> Option<Done>
    requires core { seat.old.core ≡ core.now }
    requires program { program.now ≡ core.now.program }
    requires station { station < core.now.sizes.ring }
    ensures kept { IsSameSeat seat.old seat.new }
{
    match core.claim(seat, station) {
        Claim::Job(job) => Some(finish_job(core, program, seat, job)),
        Claim::NotOpen => None,
        Claim::Waiting { tag: _, k: _ } => None,
        Claim::Moved { tag: _ } => None,
    }
}

/// Whether the tenant of a station is claimed and finished.
pub fn finish_one(core: &Core, program: &Program, seat: &mut UnitSeat, station: usize) -> bool
    requires core { seat.old.core ≡ core.now }
    requires program { program.now ≡ core.now.program }
    requires station { station < core.now.sizes.ring }
    ensures kept { IsSameSeat seat.old seat.new }
{
    match work(core, program, seat, station) {
        Some(done) => done.finish == Finish::Finished,
        None => false,
    }
}

/// The tenants of these stations are claimed and finished, in this order.
pub fn finishes(
    rt: &impl Abort,
    core: &Core,
    program: &Program,
    unit: &mut UnitSeat,
    stations: &[usize],
)
    requires unit { unit.old.core ≡ core.now }
    requires program { program.now ≡ core.now.program }
    ensures { unit.new.core ≡ core.now }
{
    for station in stations {
        let station = *station;
        assert!(rt; station < core.ring() && finish_one(core, program, unit, station));
    }
}

/// The back of a core, and the first snapper of what it shows.
pub fn back_at<J: OfProgram>(
    alloc: Global,
    core: &Core,
    seat: BackSeat,
    program: &Program,
    config: &Config,
) -> Result<(Back<J>, Snapper<J>), Fail>
    requires core { seat.core ≡ core.now }
    requires program { program.now ≡ core.now.program }
    requires named { program.now ≡ J.program }
    requires fresh { HasRetiredNothing seat }
    ensures { IfOk result (λ made. made.0.core ≡ core.now) }
{
    match Back::<J>::new(alloc, core, seat, program, config) {
        Ok(made) => Ok(made),
        Err((memory, _)) => Err(memory.into()),
    }
}

/// A core, and who works on it by hand: the front, the back, a snapper and a unit.
pub type Hands<'a, J> = (Core, Front<'a, NotTaken>, Back<J>, Snapper<J>, UnitSeat);

/// The core, with the stations that the configuration has. Its front has taken these turns.
pub fn by_hand<'a, J: OfProgram>(
    rt: &impl Abort,
    setup: &'a Setup,
    ring: usize,
    turns: &[Turn],
) -> Result<Hands<'a, J>, Fail>
    requires { setup.now.program ≡ J.program }
    ensures program { IfOk result (λ made. made.0.program ≡ setup.now.program) }
    ensures ring { IfOk result (λ made. made.0.sizes.ring ≡ ring) }
    ensures front { IfOk result (λ made. made.1.core ≡ made.0) }
    ensures back { IfOk result (λ made. made.2.core ≡ made.0) }
    ensures unit { IfOk result (λ made. made.4.core ≡ made.0) }
{
    let alloc = setup.alloc;
    let (core, seat, back_seat, unit) = Core::make(alloc, &setup.program, &setup.config)?;
    assert!(rt; core.ring() == ring);
    let mut front = Front::new(&core, seat, &setup.program, NotTaken);
    takes(rt, &core, &mut front, turns);
    let (back, snapper) = back_at::<J>(alloc, &core, back_seat, &setup.program, &setup.config)?;
    Ok((core, front, back, snapper, unit))
}
