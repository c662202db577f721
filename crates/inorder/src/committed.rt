//! What was committed: registers, data memory, pc and the count of instructions.
ghost use Rattle.std.specs.Prelude.{◌≡◌, ◌<◌, ◌≤◌, ◌+◌, ◌^◌, ◌-◌, suc, length, slice_index, IfOk};
ghost use Rattle.lsq.specs.Bytes.{little_endian};
ghost use Rattle.inorder.specs.Committed.{ahead_by, with_low};
ghost use Rattle.inorder.specs.Machine.{start, store_bytes, write as written};
ghost use Rattle.inorder.specs.Runs.{end_state};

use crate::data::{number, store};
use instructions::{End, Ending, Memory, Program, Reg};
use std::alloc::Global;
use std::marker::Model;

/// A state of the machine: its registers, its data memory, the pc of the next instruction, and how many were
/// counted. A unit holds in it what whole instructions have left.
#[derive(Drop)]
pub struct Committed {
    registers: [u32; 34],
    memory: Vec<u8>,
    pc: u32,
    count: u64,
}

impl Model for Committed {
    ghost use Rattle.std.specs.Prelude.{◌≡◌, ◌≤◌, length};
    ghost use Rattle.instructions.specs.Registers.{register_count};
    ghost use Rattle.inorder.specs.Machine.{State};

    ghost Value = { State };

    ghost view = { λ c. record { registers = c.registers; memory = c.memory.items; pc = c.pc; count = c.count } };

    ghost invariant = { λ c. record {
      memory : length c.memory.items ≤ 65536;
      registers : length c.registers ≡ register_count;
    } };
}

impl Committed {
    /// The state at the start of a program: registers 0, memory as the directives give it, pc 0x00400000.
    pub fn new(alloc: Global, program: &Program) -> Result<Committed, Memory>
        ensures { IfOk result (λ c. c ≡ start program.now) }
    {
        let memory = Vec::from_slice(alloc, program.bytes())?;
        Ok(Committed {
            registers: [0; 34],
            memory,
            pc: Program::START,
            count: 0,
        })
    }

    /// The pc of the next instruction.
    pub fn pc(&self) -> u32
        ensures { result ≡ self.now.pc }
    {
        self.pc
    }

    /// How many instructions were counted.
    pub fn count(&self) -> u64
        ensures { result ≡ self.now.count }
    {
        self.count
    }

    /// The value of a register.
    pub fn register(&self, r: Reg) -> u32
        ensures { result ≡ slice_index self.now.registers r }
    {
        self.register_ahead(None, r)
    }

    /// The value of a register, where a value may wait for LO.
    pub fn register_ahead(&self, low: Option<u32>, r: Reg) -> u32
        ensures { result ≡ slice_index (with_low low self.now.registers) r }
    {
        match low {
            Some(low) if r == Reg::LO => low,
            _ => self.registers[r.number() as usize],
        }
    }

    /// The registers, register 0 first.
    pub fn registers(&self) -> &[u32; 34]
        ensures { result.now ≡ self.now.registers }
    {
        &self.registers
    }

    /// The bytes of data memory.
    pub fn memory(&self) -> &[u8]
        ensures { result.now ≡ self.now.memory }
    {
        self.memory.as_slice()
    }

    /// The number in `width` bytes from an address on.
    pub fn number_at(&self, at: usize, width: usize) -> u32
        requires inside { at + width ≤ length self.now.memory }
        requires width { width ≤ 4 }
        ensures { result ≡ little_endian (slice_index self.now.memory) at width }
    {
        number(self.memory.as_slice(), at, width)
    }

    /// Writes the low `width` bytes of a number from an address on.
    pub fn store_at(&mut self, at: usize, width: usize, value: u32)
        requires inside { at + width ≤ length self.old.memory }
        ensures { self.new ≡
            record self.old { memory = store_bytes self.old.memory at width value } }
    {
        store(self.memory.as_mut_slice(), at, width, value);
    }

    /// Writes a register; register 0 stays 0.
    pub fn write(&mut self, r: Reg, value: u32)
        ensures { self.new ≡ record self.old { registers = written self.old.registers r value } }
    {
        let number = r.number();
        if number != 0 {
            self.registers[number as usize] = value;
        }
    }

    /// Puts back what all registers held.
    pub fn restore(&mut self, registers: &[u32; 34])
        requires { length registers.now ≡ 34 }
        ensures { self.new ≡ record self.old { registers = registers.now } }
    {
        self.registers = *registers;
    }

    /// Writes LO, if a value waits for it.
    pub fn write_low(&mut self, low: Option<u32>)
        ensures { self.new ≡ ahead_by low self.old }
    {
        if let Some(low) = low {
            self.write(Reg::LO, low);
        }
    }

    /// Counts an instruction that writes a register and goes on at `next`.
    pub fn advance(&mut self, r: Reg, value: u32, next: u32)
        requires { self.old.count < 2 ^ 64 - 1 }
        ensures registers { self.new.registers ≡ written self.old.registers r value }
        ensures rest { self.new ≡ record self.old {
          registers = self.new.registers;
          pc = next;
          count = suc self.old.count;
        } }
    {
        self.write(r, value);
        self.pc = next;
        self.count += 1;
    }

    /// The end of a run that ends so with this state.
    pub fn into_end(self, outcome: Ending) -> End
        ensures { end_state result ≡ (outcome, self) }
    {
        let Committed {
            registers,
            memory,
            pc,
            count,
        } = self;
        End {
            n: count,
            pc,
            outcome,
            registers,
            memory,
        }
    }
}
