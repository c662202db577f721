//! Branch predictors.
ghost use Rattle.std.specs.Prelude.{◌≡◌, ◌<◌, ℕ, replicate};
ghost use Rattle.instructions.specs.declared.instr.Instr.{Instr as Instruction};
ghost use Rattle.instructions.specs.Instruction.{pc_plus_4};
ghost use Rattle.instructions.specs.Prediction.{taken_target, counter_at, trained, two_bit};

use crate::{Instr, pc_plus_4};

/// A branch predictor: it is asked for the next pc of a conditional branch, `jr` or `jalr`, and told
/// how that turned out. Its answers may be any numbers: a wrong one is a misprediction, which costs
/// time and changes no result.
pub trait Predictor {
    /// The relation between the answer of `predict` and the predictor before and after the call.
    ghost Predicts: { Self → ℕ → Instruction → ℕ → Self → Type 0 };

    /// The relation between the predictor before and after `told`.
    ghost Learns: { Self → ℕ → ℕ → Self → Type 0 };

    /// A guess of the pc after the instruction at `pc`.
    fn predict(&mut self, pc: u32, instr: &Instr) -> u32
        ensures { Predicts self.old pc instr.now result self.new };

    /// Trains the predictor: the instruction at `pc`, which was predicted, has gone on at `next`.
    fn told(&mut self, pc: u32, next: u32)
        ensures { Learns self.old pc next self.new };
}

/// Predicts that no branch is taken.
#[derive(Clone, Copy, Drop)]
pub struct NotTaken;

impl Predictor for NotTaken {
    ghost Predicts = { λ old pc _ answer new. (answer ≡ pc_plus_4 pc) × (new ≡ old) };

    ghost Learns = { λ old _ _ new. new ≡ old };

    fn predict(&mut self, pc: u32, _instr: &Instr) -> u32 {
        pc_plus_4(pc)
    }

    fn told(&mut self, _pc: u32, _next: u32) {}
}

/// Predicts that each conditional branch is taken, and that `jr` and `jalr` go on at the next instruction.
#[derive(Clone, Copy, Drop)]
pub struct Taken;

impl Predictor for Taken {
    ghost Predicts = { λ old pc instr answer new. (answer ≡ taken_target pc instr) × (new ≡ old) };

    ghost Learns = { λ old _ _ new. new ≡ old };

    fn predict(&mut self, pc: u32, instr: &Instr) -> u32 {
        if instr.op().is_branch() {
            instr.number()
        } else {
            pc_plus_4(pc)
        }
    }

    fn told(&mut self, _pc: u32, _next: u32) {}
}

/// SimpleScalar's bimodal predictor: 2,048 two-bit counters, found by the low bits of the pc. A
/// conditional branch is taken where its counter is 2 or 3; `jr` and `jalr` go on at the next
/// instruction.
#[derive(Clone, Copy, Drop)]
pub struct Bimod {
    counters: [u8; 2048],
}

impl Bimod {
    /// Each counter is 1, weakly not taken.
    pub fn new() -> Bimod
        ensures { result.counters ≡ replicate 2048 1 }
    {
        Bimod {
            counters: [1; 2048],
        }
    }
}

impl Predictor for Bimod {
    ghost Predicts = { λ old pc instr answer new.
        (answer ≡ two_bit old.counters pc instr) × (new ≡ old) };

    ghost Learns = { λ old pc next new. new.counters ≡ trained old.counters pc next };

    fn predict(&mut self, pc: u32, instr: &Instr) -> u32 {
        let counter = self.counters[counter_at(pc)];
        if 2 <= counter && instr.op().is_branch() {
            instr.number()
        } else {
            pc_plus_4(pc)
        }
    }

    fn told(&mut self, pc: u32, next: u32) {
        let at = counter_at(pc);
        let counter = self.counters[at];
        self.counters[at] = if next == pc_plus_4(pc) {
            counter.saturating_sub(1)
        } else {
            counter.saturating_add(1).min(3)
        };
    }
}

// The number of the counter of a pc.
fn counter_at(pc: u32) -> usize
    ensures value { result ≡ counter_at pc }
    ensures small { result < 2048 }
{
    (pc / 4 % 2048) as usize
}
