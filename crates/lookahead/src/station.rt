//! The unit, and its transitions.
ghost use Rattle.std.specs.Prelude.{◌≡◌, ◌<◌, ◌≤◌, ◌+◌, ◌-◌, ◌^◌, IfOk, IfSome, None, OnOk};
ghost use Rattle.inorder.specs.Unit.{empty_unit};
ghost use Rattle.lookahead.specs.Early.{IsEarly, retired_early};
ghost use Rattle.lookahead.specs.StandsFor.{LooksOn, ModelStandsFor, ModelStandsForSome, StepGoes};
ghost use Rattle.own_model.specs.Runs.{IsFurther, held};

use instructions::{Instr, Memory, Outcome, Program, Stop, pc_plus_4};
use own_model::ArchitecturalState;
use std::alloc::Global;

/// A half of an instruction that was executed before the one in front of it.
#[derive(Clone, Copy)]
pub struct Early {
    pub instr: Instr,
    /// Where it was predicted to stand.
    pub pc: u32,
    pub value: u32,
}

/// A unit with two stations: the second may be executed before the first.
#[derive(Drop)]
pub struct Lookahead<'a> {
    pub program: &'a Program,
    pub state: ArchitecturalState,
    /// The second tenant, once it is executed.
    pub early: Option<Early>,
}

impl<'a> Lookahead<'a> {
    /// The unit at the start of a program.
    pub fn new(alloc: Global, program: &'a Program) -> Result<Self, Memory>
        ensures program { IfOk result (λ b. b.program.now ≡ program.now) }
        ensures unit { IfOk result (λ b. ModelStandsFor b empty_unit) }
        ensures none { IfOk result (λ b. b.early ≡ None) }
    {
        let state = ArchitecturalState::new(alloc, program)?;
        Ok(Lookahead {
            program,
            state,
            early: None,
        })
    }

    /// Executes what comes after the oldest, if that does not write what it reads, it makes a value, and two may
    /// retire before the limit.
    pub fn look_ahead(&mut self, limit: u64)
        requires below { self.old.state.committed.count < limit }
        ensures { LooksOn self.old limit self.new }
    {
        if self.early.is_none() && self.state.committed.count() + 1 < limit {
            self.early = self.executed_early();
        }
    }

    /// Executes and retires the oldest, and then the one that was executed early. The program stops where there is no
    /// oldest, or where it is a stop.
    pub fn step(&mut self) -> Result<(), Stop>
        requires unit { ModelStandsForSome self.old }
        requires count { self.old.state.committed.count + held self.old.early < 2 ^ 64 - 1 }
        ensures goes { StepGoes result self.old self.new }
        ensures next { OnOk result (IsFurther (held self.old.early) self.old.state self.new.state) }
        ensures none { OnOk result (self.new.early ≡ None) }
    {
        let Some(instr) = self.program.fetch(self.state.committed.pc()) else {
            return Err(Stop::BadPc);
        };
        let outcome = self.state.outcome(self.program, &instr);
        if let Err(code) = self.state.commit(&instr, outcome) {
            return Err(code);
        }
        self.retire_early();
        Ok(())
    }

    // What comes after the oldest, if it makes a value that does not wait for the oldest.
    fn executed_early(&self) -> Option<Early>
        ensures { IfSome result (IsEarly self.now.program.now self.now.state) }
    {
        let second = self.state.second(self.program)?;
        match second.outcome {
            Outcome::Value(value) => Some(Early {
                instr: second.instr,
                pc: second.pc,
                value,
            }),
            _ => None,
        }
    }

    // Retires the one that was executed early, or drops it where the oldest goes on elsewhere.
    fn retire_early(&mut self)
        requires { self.old.state.committed.count + held self.old.early ≤ 2 ^ 64 - 1 }
        ensures { self.new ≡ retired_early self.old }
    {
        let Some(early) = self.early else {
            return;
        };
        self.early = None;
        let pc = self.state.committed.pc();
        if pc == early.pc {
            self.state.advance(&early.instr, early.value, pc_plus_4(pc));
        }
    }
}
