//! Decoded instructions.
ghost use Rattle.std.specs.Prelude.{◌≡◌, ◌≤◌};
ghost use Rattle.instructions.specs.Instruction.{destination as destination_of, first_of, fixed_next as fixed_next_of, fixed_next_by, is_access as is_access_of, is_first_half as first_half, is_pair as is_pair_of, kind as kind_of, second_of};
ghost use Rattle.inorder.specs.Unit.{half_after};
ghost use Rattle.one_thread.specs.Decoding.{goes_of as goes_in, leaves_by};
ghost use Rattle.one_thread.specs.Leavers.{LeavesAs};
ghost use Rattle.one_thread.specs.Window.{access_of};

use crate::leaves::{Goes, Leaves, goes_of, leaves_of};
use instructions::{Half, Instr, Kind, Op, Reg, pc_plus_4};
use std::marker::Model;

/// An instruction, with what its window, its claim and its retirement ask of it, found out once.
#[derive(Clone, Copy)]
pub struct Decoded {
    instr: Instr,
    kind: Kind,
    access: bool,
    first: Reg,
    second: Reg,
    low: Reg,
    high: Reg,
    goes: Goes,
    leaves: Leaves,
}

impl Model for Decoded {
    ghost use Rattle.std.specs.Prelude.{◌≡◌};
    ghost use Rattle.std.proofs.Common.{sym};
    ghost use Rattle.instructions.specs.declared.instr.Instr.{Instr};

    ghost Value = { Instr };

    ghost use Rattle.one_thread.specs.Decoding.{decode};

    ghost view = { λ d. d.instr };

    ghost invariant = { λ d. d ≡ decode d.instr };

    ghost inverse = { decode };

    ghost inverse_ok = { λ d h. sym h };
}

/// 1 for an instruction that reaches memory, else 0.
pub fn access(instr: &Decoded) -> usize
    ensures value { result ≡ access_of instr.now }
    ensures small { result ≤ 1 }
{
    if instr.is_access() { 1 } else { 0 }
}

impl Decoded {
    pub(crate) fn new(instr: Instr) -> Decoded
        ensures { result ≡ instr }
    {
        let op = instr.op();
        let (goes, kind) = (goes_of(op), op.kind());
        Decoded {
            instr,
            kind,
            access: op.is_access(),
            first: instr.first(),
            second: instr.second(),
            low: instr.destination(Half::Low),
            high: instr.destination(Half::High),
            goes,
            leaves: leaves_of(goes, kind),
        }
    }

    /// The instruction, as its program has it.
    pub fn to_instr(self) -> Instr
        ensures { result ≡ self }
    {
        self.instr
    }

    /// The instruction where it stands.
    #[inline(always)]
    pub fn as_instr(&self) -> &Instr
        ensures { result.now ≡ self.now }
    {
        &self.instr
    }

    /// Its operation.
    pub fn op(&self) -> Op
        ensures { result ≡ self.now.op }
    {
        self.as_instr().op()
    }

    /// What its operation does.
    pub fn kind(&self) -> Kind
        ensures { result ≡ kind_of self.now.op }
    {
        self.kind
    }

    /// Where its operation goes on, as far as that tells.
    #[inline(always)]
    pub fn goes(&self) -> Goes
        ensures { result ≡ goes_in self.now.op }
    {
        self.goes
    }

    /// What there is to do when it leaves.
    #[inline(always)]
    pub fn leaves(&self) -> Leaves
        ensures is { result ≡ leaves_by (goes_in self.now.op) (kind_of self.now.op) }
        ensures leaves { LeavesAs result self.now }
    {
        self.leaves
    }

    /// The operation is a load or store.
    pub fn is_access(&self) -> bool
        ensures { result ≡ is_access_of (kind_of self.now.op) }
    {
        self.access
    }

    /// The register of source 1; register 0 where it has none.
    pub fn first(&self) -> Reg
        ensures { result ≡ first_of self.now }
    {
        self.first
    }

    /// The register of source 2; register 0 where it has none.
    pub fn second(&self) -> Reg
        ensures { result ≡ second_of self.now }
    {
        self.second
    }

    /// The operation is a multiplication or division, of two halves.
    pub fn is_pair(&self) -> bool
        ensures { result ≡ is_pair_of self.now.op }
    {
        matches!(self.goes, Goes::Pair)
    }

    /// This half is the first of two.
    pub fn is_first_half(&self, half: Half) -> bool
        ensures { result ≡ first_half self.now.op half }
    {
        self.is_pair() && half == Half::Low
    }

    /// The half that comes after one: after a first half its second.
    pub fn half_behind(&self, half: Half) -> Half
        ensures { result ≡ half_after (first_half self.now.op half) }
    {
        if self.is_first_half(half) {
            Half::High
        } else {
            Half::Low
        }
    }

    /// The register that a half changes; register 0 where it changes none.
    pub fn destination(&self, half: Half) -> Reg
        ensures { result ≡ destination_of self.now half }
    {
        match half {
            Half::Low => self.low,
            Half::High => self.high,
        }
    }

    /// The pc after a half, unless a predictor is asked for it.
    pub fn fixed_next(&self, half: Half, pc: u32) -> Option<u32>
        ensures { result ≡ fixed_next_of self.now half pc }
    {
        match self.goes {
            Goes::Pair if half == Half::Low => Some(pc),
            Goes::To | Goes::Varies => match self.leaves {
                Leaves::Told => None,
                _ => Some(self.instr.number),
            },
            _ => Some(pc_plus_4(pc)),
        }
    }
}
