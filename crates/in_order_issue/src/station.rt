//! The unit, and its transition.
ghost use Rattle.std.specs.Prelude.{◌≡◌, ◌<◌, ◌≤◌, ◌+◌, ◌-◌, ◌^◌, IfOk, OnOk};
ghost use Rattle.inorder.specs.Unit.{empty_unit};
ghost use Rattle.in_order_issue.specs.StandsFor.{ModelStandsFor, ModelStandsForSome, StepGoes};
ghost use Rattle.own_model.specs.Runs.{IsOneFurther};

use instructions::{Memory, Program, Stop};
use own_model::ArchitecturalState;
use std::alloc::Global;

/// A unit with one station: a tenant has retired before the next one is let.
#[derive(Drop)]
pub struct OneStation<'a> {
    pub program: &'a Program,
    pub state: ArchitecturalState,
}

impl<'a> OneStation<'a> {
    /// The unit at the start of a program.
    pub fn new(alloc: Global, program: &'a Program) -> Result<Self, Memory>
        ensures program { IfOk result (λ b. b.program.now ≡ program.now) }
        ensures unit { IfOk result (λ b. ModelStandsFor b empty_unit) }
    {
        let state = ArchitecturalState::new(alloc, program)?;
        Ok(OneStation { program, state })
    }

    /// Lets, claims, finishes and retires the next instruction, or the next half of one. The
    /// program stops where there is none, or where it is a stop.
    pub fn step(&mut self) -> Result<(), Stop>
        requires unit { ModelStandsForSome self.old }
        requires count { self.old.state.committed.count < 2 ^ 64 - 1 }
        ensures goes { StepGoes result self.old self.new }
        ensures next { OnOk result (IsOneFurther self.old.state self.new.state) }
    {
        let Some(instr) = self.program.fetch(self.state.committed.pc()) else {
            return Err(Stop::BadPc);
        };
        let outcome = self.state.outcome(self.program, &instr);
        self.state.commit(&instr, outcome)
    }
}
