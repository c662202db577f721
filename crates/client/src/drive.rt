//! An instruction's way through the core.
ghost use Rattle.std.specs.Prelude.{◌≡◌, ◌<◌, IfOk, length};
ghost use Rattle.inorder.specs.Unit.{next_station, recent};
ghost use Rattle.station.specs.Letting.{MayLetOut};
ghost use Rattle.client.specs.ByHand.{AreAll, KnowsUnits};
ghost use Rattle.client.specs.Works.{HasBothValues, HaveWorked, IsFirstOutcome, IsWorked, unit_at};

use crate::seats::{Seats, gather, make};
use instructions::{Config, Half, Memory, Outcome, Program};
use station::{
    Claim, Core, Supply, Tenant, a_job_is_finished, a_job_is_of_the_program, a_let_is_out,
    a_ready_tenant_is_claimed, jobs_stay,
};
use std::alloc::Global;

/// The work of a unit for a tenant with this tag: the pc and the two values of the job, and the
/// outcome.
#[derive(Clone, Copy)]
pub struct Worked {
    pub tag: u32,
    pub pc: u32,
    pub a: u32,
    pub b: u32,
    pub outcome: Outcome,
}

/// Lets out to its station a tenant whose sources have their values, and has a unit claim and finish
/// it. The claim gives a job and nothing else, since nobody else steps.
pub fn work(
    core: &Core,
    program: &Program,
    seats: &mut Seats,
    station: usize,
    tenant: Tenant,
) -> Worked
    requires all { AreAll core.now seats.old }
    requires program { program.now ≡ core.now.program }
    requires knows { KnowsUnits seats.old }
    requires station { station ≡ next_station core.now.sizes (recent (unit_at core.now seats.old)) }
    requires may { MayLetOut core.now.program core.now.sizes (unit_at core.now seats.old) tenant }
    requires values { HasBothValues tenant }
    ensures all { AreAll core.now seats.new }
    ensures history { HaveWorked core.now seats.old seats.new station tenant result }
    ensures worked { IsWorked core.now seats.old seats.new station tenant result }
{
    let tag = core.let_out(&mut seats.front, tenant);
    gather(core, seats);
    let answer = core.claim(&mut seats.one, station);
    gather(core, seats);
    a_let_is_out();
    a_ready_tenant_is_claimed();
    match answer {
        Claim::Job(job) => {
            jobs_stay();
            a_job_is_of_the_program();
            a_job_is_finished();
            let (pc, a, b) = (job.pc(), job.a(), job.b());
            let outcome = job.outcome(program);
            core.finish(&mut seats.one, job, outcome);
            gather(core, seats);
            Worked {
                tag,
                pc,
                a,
                b,
                outcome,
            }
        }
        Claim::NotOpen => unreachable!(),
        Claim::Waiting { tag: _, k: _ } => unreachable!(),
        Claim::Moved { tag: _ } => unreachable!(),
    }
}

/// The outcome of a program's first instruction, by a unit of a new core.
pub fn first_outcome(alloc: Global, program: &Program, config: &Config) -> Result<Outcome, Memory>
    requires { 0 < length program.now.code }
    ensures { IfOk result (λ found. IsFirstOutcome program.now found) }
{
    // there is room for one tenant, and a tag
    prove!(0 < config.ring());
    prove!(0 < config.queue());
    prove!(config.first_tag() < 0x0fff_ffff);
    let (core, mut seats) = make(alloc, program, config)?;
    let first = program.instr(0).fixed_next(Half::Low, Program::START);
    let predicted = first.unwrap_or(0);
    let tenant = Tenant {
        index: 0,
        half: Half::Low,
        predicted,
        sources: (Supply::Known(0), Supply::Known(0)),
    };
    let worked = work(&core, program, &mut seats, 0, tenant);
    Ok(worked.outcome)
}
