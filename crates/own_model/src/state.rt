//! The architectural state, and what an instruction does in it.
ghost use Rattle.std.specs.Prelude.{◌≡◌, ◌<◌, ◌≤◌, ◌+◌, ◌-◌, ◌^◌, ◌==◌, ◌&&◌, not, IfOk, IfSome, None, length};
ghost use Rattle.instructions.specs.Instruction.{destination, kind as kind_of, width as width_of};
ghost use Rattle.instructions.specs.Operations.{AddressIsInside};
ghost use Rattle.inorder.specs.Machine.{start};
ghost use Rattle.own_model.specs.Flight.{IsSecondOf, second_half as second_half_in};
ghost use Rattle.own_model.specs.State.{Commits, NextIsWord, accessed, advanced, half_in, loaded_at, outcome_in, value_in};

use inorder::Committed;
use instructions::{
    Half, Instr, Kind, Memory, Outcome, Program, Reg, Stop, loaded, outcome_of, pc_plus_4,
};
use std::alloc::Global;

/// What a new instruction finds where all before it have retired.
#[derive(Drop)]
pub struct ArchitecturalState {
    /// What whole instructions have left.
    pub committed: Committed,
    /// What the first half of a multiplication or division has left for LO, until its second half retires.
    pub low: Option<u32>,
}

/// A half that was executed before the one in front of it.
#[derive(Clone, Copy)]
pub struct Second {
    pub instr: Instr,
    /// Where it was predicted to stand.
    pub pc: u32,
    pub outcome: Outcome,
}

impl ArchitecturalState {
    /// The state at the start of a program.
    pub fn new(alloc: Global, program: &Program) -> Result<Self, Memory>
        ensures { IfOk result (λ a. a ≡ record { committed = start program.now; low = None }) }
    {
        let committed = Committed::new(alloc, program)?;
        Ok(ArchitecturalState {
            committed,
            low: None,
        })
    }

    /// The half of an instruction that comes next.
    pub fn half(&self) -> Half
        ensures { result ≡ half_in self.now }
    {
        if self.low.is_some() {
            Half::High
        } else {
            Half::Low
        }
    }

    /// The value of a register, as the next instruction finds it.
    pub fn value(&self, register: Reg) -> u32
        ensures { result ≡ value_in self.now register }
    {
        self.committed.register_ahead(self.low, register)
    }

    /// Whether the next half of an instruction writes this register; nothing writes register 0.
    pub fn writes(&self, instr: &Instr, register: Reg) -> bool
        ensures { result ≡ (not (register == 0) && destination instr.now (half_in self.now) == register) }
    {
        register != Reg::ZERO && instr.destination(self.half()) == register
    }

    /// The half that comes after the next half of an instruction.
    pub fn second_half(&self, instr: &Instr) -> Half
        ensures { result ≡ second_half_in self.now instr.now }
    {
        if instr.is_first_half(self.half()) {
            Half::High
        } else {
            Half::Low
        }
    }

    /// What comes after the next instruction, executed before it; none where it reads what that one writes. A
    /// branch is predicted not taken.
    pub fn second(&self, program: &Program) -> Option<Second>
        ensures { IfSome result (IsSecondOf program.now self.now) }
    {
        let pc = self.committed.pc();
        let oldest = program.fetch(pc)?;
        let predicted = oldest.fixed_next(self.half(), pc).unwrap_or(pc_plus_4(pc));
        let instr = program.fetch(predicted)?;
        if self.writes(&oldest, instr.first()) || self.writes(&oldest, instr.second()) {
            return None;
        }
        let half = self.second_half(&oldest);
        let first = self.value(instr.first());
        let second = self.value(instr.second());
        Some(Second {
            instr,
            pc: predicted,
            outcome: outcome_of(&instr, half, predicted, first, second, program.size()),
        })
    }

    /// The outcome of an instruction, or of its next half, that is executed in this state.
    pub fn outcome(&self, program: &Program, instr: &Instr) -> Outcome
        ensures value { result ≡ outcome_in program.now self.now instr.now }
        ensures inside { AddressIsInside result (width_of instr.now.op) (length program.now.bytes) }
        ensures word { NextIsWord result }
    {
        let pc = self.committed.pc();
        let first = self.value(instr.first());
        let second = self.value(instr.second());
        outcome_of(instr, self.half(), pc, first, second, program.size())
    }

    /// Commits what an instruction, or its next half, leaves that has this outcome. A stop leaves nothing.
    pub fn commit(&mut self, instr: &Instr, outcome: Outcome) -> Result<(), Stop>
        requires inside { AddressIsInside outcome (width_of instr.now.op) (length self.old.committed.memory) }
        requires count { self.old.committed.count < 2 ^ 64 - 1 }
        ensures { Commits result self.old instr.now outcome self.new }
    {
        let after = pc_plus_4(self.committed.pc());
        match outcome {
            Outcome::Stop(code) => return Err(code),
            Outcome::Next(next) => self.advance(instr, after, next),
            Outcome::Address(at) => self.access(instr, at as usize, after),
            Outcome::Value(value) | Outcome::Pair(value, _) => self.advance(instr, value, after),
        }
        Ok(())
    }

    /// The value that a load finds at an address.
    pub fn load(&self, instr: &Instr, at: usize) -> u32
        requires { at + width_of instr.now.op ≤ length self.now.committed.memory }
        ensures { result ≡ loaded_at self.now instr.now at }
    {
        let width = instr.op().width() as usize;
        loaded(instr.op(), self.committed.number_at(at, width))
    }

    // Stores source 2 at an address, or loads what is there.
    fn access(&mut self, instr: &Instr, at: usize, after: u32)
        requires inside { at + width_of instr.now.op ≤ length self.old.committed.memory }
        requires count { self.old.committed.count < 2 ^ 64 - 1 }
        ensures { self.new ≡ accessed (kind_of instr.now.op) self.old instr.now (half_in self.old) after at }
    {
        if instr.op().kind() == Kind::Stores {
            let stored = self.value(instr.second());
            self.committed
                .store_at(at, instr.op().width() as usize, stored);
            self.advance(instr, 0, after);
            return;
        }
        let value = self.load(instr, at);
        self.advance(instr, value, after);
    }

    /// Commits the next half of an instruction, which makes this value and goes on at `next`. A first half leaves
    /// its value for LO to its second half, and counts nothing.
    pub fn advance(&mut self, instr: &Instr, made: u32, next: u32)
        requires { self.old.committed.count < 2 ^ 64 - 1 }
        ensures { self.new ≡ advanced self.old instr.now (half_in self.old) self.old.committed.memory made next }
    {
        let half = self.half();
        if instr.is_first_half(half) {
            self.low = Some(made);
            return;
        }
        self.committed.write_low(self.low);
        self.low = None;
        self.committed.advance(instr.destination(half), made, next);
    }
}
