//! The in-order machine.
ghost use Rattle.std.specs.Prelude.{◌≡◌, ◌<◌, ◌≤◌, ◌+◌, ◌^◌, ◌-◌, length, slice_index, IfOk};
ghost use Rattle.inorder.specs.Machine.{step as step_of, start, advanced, after_access, after_pair};
ghost use Rattle.instructions.specs.Instruction.{kind as kind_of, width as width_of, second_of};
ghost use Rattle.inorder.specs.Runs.{Running, IsStep, end_from, ending};

use crate::committed::Committed;
use instructions::{
    Half, Instr, Kind, Memory, Outcome, Program, Reg, Stop, loaded, outcome, pc_plus_4,
};
use std::alloc::Global;
use std::marker::Model;

/// The answer of a step.
#[derive(Clone, Copy, Debug, PartialEq, Eq)]
pub enum Stepped {
    /// One instruction was run.
    Ran,
    /// The instruction at the pc stops; nothing was changed, and each later step answers the same.
    Stopped(Stop),
}

/// How a run ends.
#[derive(Clone, Copy, Debug, PartialEq, Eq)]
pub enum Ended {
    /// The instruction at the pc stops.
    Stopped(Stop),
    /// The count has reached the limit, whatever the next step would do.
    Limit,
}

/// A machine that runs a program one instruction after another.
#[derive(Drop)]
pub struct Machine<'a> {
    program: &'a Program,
    state: Committed,
}

impl<'a> Model for Machine<'a> {
    ghost Value = { Running };

    ghost view = { λ m. record { program = m.program.now; state = m.state } };

    ghost invariant = { λ m. length m.state.memory ≡ length m.program.now.bytes };
}

impl<'a> Machine<'a> {
    /// A machine at the start of a program: registers 0, memory as the directives give it, pc
    /// 0x00400000.
    pub fn new(alloc: Global, program: &'a Program) -> Result<Self, Memory>
        ensures { IfOk result (λ m.
            m ≡ record { program = program.now; state = start program.now }) }
    {
        let state = Committed::new(alloc, program)?;
        Ok(Machine { program, state })
    }

    /// How many instructions it has run.
    pub fn count(&self) -> u64
        ensures { result ≡ self.now.state.count }
    {
        self.state.count()
    }

    /// The address of the instruction that the next step runs.
    pub fn pc(&self) -> u32
        ensures { result ≡ self.now.state.pc }
    {
        self.state.pc()
    }

    /// The value of a register.
    pub fn register(&self, r: Reg) -> u32
        ensures { result ≡ slice_index self.now.state.registers r }
    {
        self.state.register(r)
    }

    /// The registers, register 0 first.
    pub fn registers(&self) -> &[u32; 34]
        ensures { result.now ≡ self.now.state.registers }
    {
        self.state.registers()
    }

    /// The bytes of data memory.
    pub fn memory(&self) -> &[u8]
        ensures { result.now ≡ self.now.state.memory }
    {
        self.state.memory()
    }

    /// Runs one instruction, or says why it stops.
    pub fn step(&mut self) -> Stepped
        requires { self.old.state.count < 2 ^ 64 - 1 }
        ensures { IsStep self.old result self.new (step_of self.old.program self.old.state) }
    {
        let pc = self.state.pc();
        let Some(instr) = self.program.fetch(pc) else {
            return Stepped::Stopped(Stop::BadPc);
        };
        let a = self.state.register(instr.first());
        let b = self.state.register(instr.second());
        match outcome(&instr, pc, a, b, self.program.size()) {
            Outcome::Stop(stop) => return Stepped::Stopped(stop),
            Outcome::Value(value) => self.advance(&instr, value, pc_plus_4(pc)),
            Outcome::Next(next) => self.advance(&instr, pc_plus_4(pc), next),
            Outcome::Pair(low, high) => self.advance_pair(&instr, low, high),
            Outcome::Address(address) => self.access(&instr, address as usize, b),
        }
        Stepped::Ran
    }

    fn advance(&mut self, instr: &Instr, value: u32, next: u32)
        requires { self.old.state.count < 2 ^ 64 - 1 }
        ensures { self.new ≡ record self.old {
          state = advanced self.old.state instr.now value self.old.state.memory next;
        } }
    {
        self.state
            .advance(instr.destination(Half::Low), value, next);
    }

    // the instruction that makes values for LO and HI
    fn advance_pair(&mut self, instr: &Instr, low: u32, high: u32)
        requires { self.old.state.count < 2 ^ 64 - 1 }
        ensures { self.new ≡ record self.old {
          state = after_pair self.old.state instr.now low high;
        } }
    {
        let next = pc_plus_4(self.state.pc());
        self.advance(instr, low, next);
        self.state.write(instr.destination(Half::High), high);
    }

    // the load or store at an address, with what source 2 holds
    fn access(&mut self, instr: &Instr, address: usize, b: u32)
        requires count { self.old.state.count < 2 ^ 64 - 1 }
        requires inside { address + width_of instr.now.op ≤ length self.old.program.bytes }
        requires source { b ≡ slice_index self.old.state.registers (second_of instr.now) }
        ensures { self.new ≡ record self.old {
          state = after_access (kind_of instr.now.op) self.old.state instr.now address;
        } }
    {
        let width = instr.op().width() as usize;
        let next = pc_plus_4(self.state.pc());
        match instr.op().kind() {
            Kind::Stores => {
                self.state.store_at(address, width, b);
                self.advance(instr, 0, next);
            }
            _ => {
                let raw = self.state.number_at(address, width);
                self.advance(instr, loaded(instr.op(), raw), next);
            }
        }
    }

    /// Runs until the next instruction stops, or the count has reached the limit.
    pub fn run(&mut self, limit: u64) -> Ended
        ensures program { self.new.program ≡ self.old.program }
        ensures end { (ending result, self.new.state) ≡
            end_from self.old.program (limit - self.old.state.count) self.old.state }
    {
        while self.count() < limit {
            match self.step() {
                Stepped::Ran => {}
                Stepped::Stopped(stop) => return Ended::Stopped(stop),
            }
        }
        Ended::Limit
    }
}
