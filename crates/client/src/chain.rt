//! Two instructions, of which the second waits for what the first makes.
ghost use Rattle.std.specs.Prelude.{◌≡◌, ◌<◌, IfOk, IsTrue};
ghost use Rattle.client.specs.Chains.{IsChain, IsSecondOutcome, WorksOut};
ghost use Rattle.client.specs.Done.{HasReady, InAll, CallLeads};
ghost use Rattle.client.specs.ByHand.{AreAll};

use crate::by_hand::{ask_next, claim_next, finish_next, let_next};
use crate::seats::{Seats, make};
use instructions::{Config, Half, Kind, Memory, Outcome, Program, outcome_of};
use station::{
    Claim, Core, Source, Supply, Tenant, a_job_is_of_the_program, a_let_can_be_asked,
    a_ready_tenant_is_claimed,
};
use std::alloc::Global;

/// Whether the second instruction waits for what the first makes.
pub fn is_chain(program: &Program) -> bool
    ensures yes { IsTrue result → IsChain program.now }
    ensures no { IsChain program.now → IsTrue result }
{
    if program.len() < 2 {
        return false;
    }
    let (first, second) = (program.instr(0), program.instr(1));
    let passed = first.destination(Half::Low).number();
    let outcome = outcome_of(first, Half::Low, Program::START, 0, 0, program.size());
    let behind = first.fixed_next(Half::Low, Program::START);
    matches!(first.op().kind(), Kind::Computes)
        && matches!(behind, Some(pc) if pc == Program::START + 4)
        && matches!(outcome, Outcome::Value(_))
        && 0 < passed
        && second.first().number() == passed
        && second.second().number() != passed
}

// The unit claims the tenant that is ready at a station, and finishes its job.
fn work_at(core: &Core, program: &Program, seats: &mut Seats, station: usize) -> Outcome
    requires all { AreAll core.now seats.old }
    requires program { program.now ≡ core.now.program }
    requires station { station < core.now.sizes.ring }
    requires ready { InAll core.now seats.old (HasReady core.now station) }
    ensures all { AreAll core.now seats.new }
    ensures done { CallLeads core.now seats.old seats.new seats.old.one.by
        (WorksOut core.now seats.old.one.by station result) }
{
    let answer = claim_next(core, seats, station);
    a_ready_tenant_is_claimed();
    match answer {
        Claim::Job(job) => {
            a_job_is_of_the_program();
            let outcome = job.outcome(program);
            finish_next(core, seats, job, outcome);
            outcome
        }
        Claim::NotOpen => unreachable!(),
        Claim::Waiting { tag: _, k: _ } => unreachable!(),
        Claim::Moved { tag: _ } => unreachable!(),
    }
}

/// The outcome of a program's second instruction, by a unit of a new core. It is let and asks for its
/// source before the first is claimed, so that the value reaches it along a link.
pub fn second_outcome(alloc: Global, program: &Program, config: &Config) -> Result<Outcome, Memory>
    requires { IsChain program.now }
    ensures { IfOk result (λ found. IsSecondOutcome program.now found) }
{
    // there is room for two tenants, and a tag
    prove!(1 < config.ring());
    prove!(0 < config.queue());
    prove!(config.first_tag() < 0x0fff_ffff);
    let (core, mut seats) = make(alloc, program, config)?;
    let first = Tenant {
        index: 0,
        half: Half::Low,
        predicted: Program::START + 4,
        sources: (Supply::Known(0), Supply::Known(0)),
    };
    let tag = let_next(&core, &mut seats, first);
    let behind = program.instr(1).fixed_next(Half::Low, Program::START + 4);
    let predicted = behind.unwrap_or(0);
    let second = Tenant {
        index: 1,
        half: Half::Low,
        predicted,
        sources: (Supply::From { station: 0, tag }, Supply::Known(0)),
    };
    let second_tag = let_next(&core, &mut seats, second);
    a_let_can_be_asked();
    ask_next(&core, &mut seats, 1, second_tag, Source::First, (0, tag));
    work_at(&core, program, &mut seats, 0);
    let outcome = work_at(&core, program, &mut seats, 1);
    Ok(outcome)
}
