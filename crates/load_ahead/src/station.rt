//! The unit, and its transitions.
ghost use Rattle.std.specs.Prelude.{◌≡◌, ◌<◌, ◌≤◌, ◌+◌, ◌-◌, ◌^◌, IfOk, IfSome, None, OnOk, length};
ghost use Rattle.inorder.specs.Unit.{empty_unit};
ghost use Rattle.load_ahead.specs.Ahead.{FitsIn, IsAhead, checked};
ghost use Rattle.load_ahead.specs.StandsFor.{LooksOn, ModelStandsFor, ModelStandsForSome, StepGoes};
ghost use Rattle.own_model.specs.Runs.{IsFurther, held};

use instructions::{Instr, Kind, Memory, Outcome, Program, Stop, pc_plus_4};
use own_model::ArchitecturalState;
use std::alloc::Global;

/// A load that has read memory ahead of the instruction in front of it.
#[derive(Clone, Copy)]
pub struct Ahead {
    pub instr: Instr,
    /// Where it was predicted to stand.
    pub pc: u32,
    pub address: usize,
    /// What it has read: right if that instruction does not store there.
    pub guess: u32,
}

/// A unit with two stations: a load in the second reads memory before the first is executed, which may be a store.
#[derive(Drop)]
pub struct LoadAhead<'a> {
    pub program: &'a Program,
    pub state: ArchitecturalState,
    /// The second tenant, once it has read.
    pub ahead: Option<Ahead>,
}

impl<'a> LoadAhead<'a> {
    /// The unit at the start of a program.
    pub fn new(alloc: Global, program: &'a Program) -> Result<Self, Memory>
        ensures program { IfOk result (λ b. b.program.now ≡ program.now) }
        ensures unit { IfOk result (λ b. ModelStandsFor b empty_unit) }
        ensures none { IfOk result (λ b. b.ahead ≡ None) }
    {
        let state = ArchitecturalState::new(alloc, program)?;
        Ok(LoadAhead {
            program,
            state,
            ahead: None,
        })
    }

    /// Lets a load after the oldest read memory, if its base does not wait for the oldest and two may retire before
    /// the limit.
    pub fn look_ahead(&mut self, limit: u64)
        requires unit { ModelStandsForSome self.old }
        requires below { self.old.state.committed.count < limit }
        ensures { LooksOn self.old limit self.new }
    {
        if self.ahead.is_none() && self.state.committed.count() + 1 < limit {
            self.ahead = self.loaded_ahead();
        }
    }

    /// Executes and retires the oldest, and then the load that has read ahead, if it has read right. The program stops
    /// where there is no oldest, or where it is a stop.
    pub fn step(&mut self) -> Result<(), Stop>
        requires unit { ModelStandsForSome self.old }
        requires count { self.old.state.committed.count + held self.old.ahead < 2 ^ 64 - 1 }
        ensures goes { StepGoes result self.old self.new }
        ensures next { OnOk result (IsFurther (held self.old.ahead) self.old.state self.new.state) }
        ensures none { OnOk result (self.new.ahead ≡ None) }
    {
        let Some(instr) = self.program.fetch(self.state.committed.pc()) else {
            return Err(Stop::BadPc);
        };
        let outcome = self.state.outcome(self.program, &instr);
        if let Err(code) = self.state.commit(&instr, outcome) {
            return Err(code);
        }
        self.check_load();
        Ok(())
    }

    // The load after the oldest, with what memory holds now.
    fn loaded_ahead(&self) -> Option<Ahead>
        requires { length self.now.state.committed.memory ≡ length self.now.program.now.bytes }
        ensures { IfSome result (IsAhead self.now.program.now self.now.state) }
    {
        let second = self.state.second(self.program)?;
        if second.instr.op().kind() != Kind::Loads {
            return None;
        }
        match second.outcome {
            Outcome::Address(address) => Some(Ahead {
                instr: second.instr,
                pc: second.pc,
                address: address as usize,
                guess: self.state.load(&second.instr, address as usize),
            }),
            _ => None,
        }
    }

    // Retires the load that has read ahead if memory still holds what it has read; else it is flushed, and executed
    // again when it is the oldest.
    fn check_load(&mut self)
        requires fits { FitsIn self.old.ahead self.old.state }
        requires count { self.old.state.committed.count + held self.old.ahead ≤ 2 ^ 64 - 1 }
        ensures { self.new ≡ checked self.old }
    {
        let Some(load) = self.ahead else {
            return;
        };
        self.ahead = None;
        let pc = self.state.committed.pc();
        if pc != load.pc {
            return;
        }
        if self.state.load(&load.instr, load.address) == load.guess {
            self.state.advance(&load.instr, load.guess, pc_plus_4(pc));
        }
    }
}
