//! An instruction, and the registers that it reads and writes.
ghost use Rattle.std.specs.Prelude.{◌≡◌, IsTrue, true};
ghost use Rattle.instructions.specs.Instruction.{source as source_of, written as written_of, fixed_next as fixed_next_of, destination as destination_of, is_pair as is_pair_of, is_first_half as first_half, first_of, second_of, target_of, pair_target as pair_target_of, read_by, instr_with};

use crate::{Half, Kind, Op, Reg, pc_plus_4};

/// An instruction: its operation, and the registers and the number that it names. Register 0 stands
/// where the operation has no register.
#[derive(Clone, Copy)]
pub struct Instr {
    pub op: Op,
    /// The register of its value.
    pub target: Reg,
    /// The register of source 1.
    pub first: Reg,
    /// The register of source 2.
    pub second: Reg,
    /// The extended immediate, the shift amount or the target address; else 0.
    pub number: u32,
}

// The register that is read where an instruction names this one: a multiplication or division reads general registers
// alone.
#[inline(always)]
fn read_register(op: Op, named: Reg) -> Reg
    ensures { result ≡ read_by (is_pair_of op) named }
{
    if op.is_pair() {
        read_by_pair(named)
    } else {
        named
    }
}

// The register that a multiplication or division reads where it names this one: a function of its own, since nearly
// every instruction takes the other way.
#[cold]
#[inline(never)]
fn read_by_pair(named: Reg) -> Reg
    ensures { result ≡ read_by true named }
{
    if named.number() < 32 {
        named
    } else {
        Reg::ZERO
    }
}

// Whether two operations are equal: a comparison of its own, since it has 51 by 51 cases.
fn same_op(one: Op, other: Op) -> bool
    ensures yes { IsTrue result → one ≡ other }
    ensures no { one ≡ other → IsTrue result }
{
    one == other
}

// The register that a half of a multiplication or division writes.
#[cold]
#[inline(never)]
fn pair_target(half: Half) -> Reg
    ensures { result ≡ pair_target_of half }
{
    match half {
        Half::Low => Reg::LO,
        Half::High => Reg::HI,
    }
}

impl Instr {
    /// An instruction of these registers and this number. The caller gives register 0 where the
    /// operation has no register, and 0 where it has no number.
    pub fn new(op: Op, target: Reg, first: Reg, second: Reg, number: u32) -> Instr
        ensures { result ≡ instr_with op target first second number }
    {
        Instr {
            op,
            target,
            first,
            second,
            number,
        }
    }

    /// Whether two instructions are equal.
    pub fn is_same(&self, other: &Instr) -> bool
        ensures yes { IsTrue result → self.now ≡ other.now }
        ensures no { self.now ≡ other.now → IsTrue result }
    {
        same_op(self.op, other.op)
            && self.target.number() == other.target.number()
            && self.first.number() == other.first.number()
            && self.second.number() == other.second.number()
            && self.number == other.number
    }

    /// The operation of the instruction.
    pub fn op(&self) -> Op
        ensures { result ≡ self.now.op }
    {
        self.op
    }

    /// The register that source `k` reads, where it has a source 1 or 2.
    pub fn source(&self, k: u32) -> Option<Reg>
        ensures { result ≡ source_of k self.now }
    {
        match k {
            1 if self.op.reads_first() => Some(self.first()),
            2 if self.op.reads_second() => Some(self.second()),
            _ => None,
        }
    }

    /// The register that stands for source 1: the one that is named, but register 0 where a
    /// multiplication or division names LO or HI.
    pub fn first(&self) -> Reg
        ensures { result ≡ first_of self.now }
    {
        read_register(self.op, self.first)
    }

    /// The register that stands for source 2: the one that is named, but register 0 where a
    /// multiplication or division names LO or HI.
    pub fn second(&self) -> Reg
        ensures { result ≡ second_of self.now }
    {
        read_register(self.op, self.second)
    }

    /// Whether a half is the first of two: the second follows at the same pc.
    pub fn is_first_half(&self, half: Half) -> bool
        ensures { result ≡ first_half self.now.op half }
    {
        self.op.is_pair() && half == Half::Low
    }

    /// The register that a half changes. Where it changes none, that is register 0, which never
    /// changes, if the instruction names register 0 where it has no register.
    pub fn destination(&self, half: Half) -> Reg
        ensures { result ≡ destination_of self.now half }
    {
        match self.op.kind() {
            Kind::Jumps | Kind::Stores => Reg::ZERO,
            _ => self.target(half),
        }
    }

    // The register of a half, where it writes one.
    fn target(&self, half: Half) -> Reg
        ensures { result ≡ target_of self.now half }
    {
        if self.op.is_pair() {
            pair_target(half)
        } else {
            self.target
        }
    }

    /// The register that a half writes, if any. A write to register 0 is dropped.
    pub fn written(&self, half: Half) -> Option<Reg>
        ensures { result ≡ written_of self.now half }
    {
        if self.op.writes() {
            Some(self.target(half))
        } else {
            None
        }
    }

    /// The extended immediate, the shift amount or the target address; else 0.
    pub fn number(&self) -> u32
        ensures { result ≡ self.now.number }
    {
        self.number
    }

    /// The pc after a half where that needs no prediction; None for a conditional branch, `jr` and `jalr`. The second of
    /// two halves follows the first at the same pc.
    pub fn fixed_next(&self, half: Half, pc: u32) -> Option<u32>
        ensures { result ≡ fixed_next_of self.now half pc }
    {
        if self.is_first_half(half) {
            return Some(pc);
        }
        match self.op {
            Op::J | Op::Jal => Some(self.number),
            Op::Jr | Op::Jalr => None,
            op if op.is_branch() => None,
            _ => Some(pc_plus_4(pc)),
        }
    }
}
