//! What the tenant that is let next finds, where all live ones have made what they write.
ghost use Rattle.std.specs.Prelude.{◌≡◌, ◌≢◌, ◌<◌, ℕ, [], length, slice_index, slice_set, Option, Some};
ghost use Rattle.inorder.specs.Machine.{write};
ghost use Rattle.instructions.specs.Instruction.{first_of, second_of};
ghost use Rattle.streaming.specs.Futures.{Foresees, GoesOnBehind};

use instructions::Reg;
use one_thread::{Decoded, Operands, WithPendingLow};

/// What each register holds after the live tenants, and where the path goes on. The values are the future file of
/// Smith and Pleszkun.
#[derive(Clone, Copy)]
pub struct Future {
    pub values: [u32; 34],
    pub pc: u32,
}

impl Future {
    /// The sources of an instruction.
    #[inline(always)]
    pub fn operands(&self, instr: &Decoded) -> Operands
        requires { length self.now.values ≡ 34 }
        ensures first { result.a ≡ slice_index self.now.values (first_of instr.now) }
        ensures second { result.b ≡ slice_index self.now.values (second_of instr.now) }
        ensures registers { (first_of instr.now < 34) × (second_of instr.now < 34) }
    {
        Operands {
            a: self.values[instr.first().number() as usize],
            b: self.values[instr.second().number() as usize],
        }
    }

    /// Moves on after a station that writes this value to a register, if that is not register 0, and goes on at `next`.
    #[inline(always)]
    pub fn follow(&mut self, destination: Reg, value: u32, next: u32)
        requires { length self.old.values ≡ 34 }
        ensures values { self.new.values ≡ write self.old.values destination value }
        ensures on { (made : Option ℕ) → (destination ≢ 0 → made ≡ Some value) →
            GoesOnBehind self.old destination made next self.new }
    {
        let r = destination.number() as usize;
        if r != 0 {
            self.values[r] = value;
        }
        self.pc = next;
    }

    /// The values where nobody is live.
    pub fn behind(ahead: &WithPendingLow) -> Future
        requires { length ahead.now.registers ≡ 34 }
        ensures values { result.values ≡ slice_set ahead.now.registers 0 0 }
        ensures on { Foresees result ahead.now.registers ahead.now.pc [] }
    {
        let mut values = *ahead.committed.registers();
        if let Some(low) = *ahead.low {
            values[Reg::LO.number() as usize] = low;
        }
        values[0] = 0;
        Future {
            values,
            pc: ahead.committed.pc(),
        }
    }
}
