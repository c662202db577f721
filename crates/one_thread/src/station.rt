//! A live tenant, and how far it has come.
ghost use Rattle.std.specs.Prelude.{◌≡◌};
ghost use Rattle.inorder.specs.Tenants.{made_at_let as made_at_let_of};
ghost use Rattle.one_thread.specs.Window.{let_at as let_at_of};

use crate::decoded::Decoded;
use instructions::{Half, Kind, Reg, Stop, pc_plus_4};

/// How far a tenant has come.
#[derive(Clone, Copy)]
pub enum Stage {
    /// The tenant waits for its operands, or for its turn.
    Open,
    /// A load or store has its address.
    Addr(u32),
    /// The tenant has its value, or its next pc as predicted.
    Done,
    /// Its next pc is this one, and another was predicted.
    Miss(u32),
    /// The tenant stops the program, should it retire.
    Stops(Stop),
}

/// A live tenant.
#[derive(Clone, Copy)]
pub struct Station {
    pub instr: Decoded,
    /// Which half of its instruction the tenant is.
    pub half: Half,
    /// The register that it writes; 0 where it writes none.
    pub destination: Reg,
    pub pc: u32,
    /// The next pc that was predicted.
    pub predicted: u32,
    /// The predicted next pc, or the computed one once it was mended.
    pub next: u32,
    /// What it has made for its register.
    pub made: Option<u32>,
    pub stage: Stage,
}

/// What an instruction at `pc` has made from the start.
#[inline(always)]
pub fn made_at_let(kind: Kind, pc: u32) -> Option<u32>
    ensures { result ≡ made_at_let_of kind pc }
{
    match kind {
        Kind::Links => Some(pc_plus_4(pc)),
        _ => None,
    }
}

impl Station {
    /// A half of an instruction that is let at a pc.
    #[inline(always)]
    pub fn let_at(instr: &Decoded, half: Half, pc: u32, predicted: u32) -> Station
        ensures { result ≡ let_at_of instr.now half pc predicted }
    {
        Station {
            instr: *instr,
            half,
            destination: instr.destination(half),
            pc,
            predicted,
            next: predicted,
            made: made_at_let(instr.kind(), pc),
            stage: Stage::Open,
        }
    }
}
