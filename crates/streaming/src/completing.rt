//! What the next instruction of a flow completes with.
ghost use Rattle.std.specs.Prelude.{◌≡◌, ◌≤◌, ◌+◌, ℕ, length, IsTrue, None};
ghost use Rattle.instructions.specs.Instruction.{kind as kind_in, width as width_in};
ghost use Rattle.instructions.specs.declared.op.Kind.TheVariants.{Computes};
ghost use Rattle.instructions.specs.declared.stop.Outcome.TheVariants.{Address};
ghost use Rattle.lsq.specs.LoadRule.{answer_over as answer_of, lacks_address, youngest};
ghost use Rattle.streaming.specs.Known.{KnownAs};
ghost use Rattle.streaming.specs.Flow.{Completes, outcome_in};
ghost use Rattle.one_thread.specs.Loads.{value_by as value_of};

use crate::flow::Flow;
use crate::known::kind_by;
use inorder::access_width;
use instructions::{Half, Kind, Op, Outcome, outcome_by_kind, pc_plus_4};
use lsq::{Entry, answer_over_known};
use one_thread::{Decoded, Operands, Pipeline, value_by};

/// What an instruction completes with: what it has made, or where it stores, and where it goes on.
#[derive(Clone, Copy)]
pub struct Done {
    pub value: u32,
    pub next: u32,
}

// The value of a load of an address after these stores, unless one blocks it.
#[inline(always)]
fn value_behind(unit: &Pipeline<'_>, stores: &[Entry], op: Op, address: u32) -> Option<u32>
    requires inside { address + width_in op ≤ length unit.now.committed.memory }
    requires known { youngest lacks_address stores.now ≡ None }
    ensures { let older = answer_of stores.now address (width_in op) in
        result ≡ value_of older unit.now.committed.memory op address }
{
    let answer = answer_over_known(stores, address, access_width(op));
    value_by(answer, &unit.committed, op, address)
}

// The outcome of the next instruction, which is of this kind.
#[inline(always)]
fn outcome(
    unit: &Pipeline<'_>,
    kind: Kind,
    flow: &Flow,
    instr: &Decoded,
    half: Half,
    operands: &Operands,
) -> Outcome
    requires kind { kind ≡ kind_in instr.now.op }
    requires half { half ≡ flow.now.half }
    ensures { result ≡ outcome_in unit.now flow.now instr.now operands.now }
{
    let Operands { a, b } = *operands;
    let size = unit.program.size();
    let pc = flow.future.pc;
    outcome_by_kind(kind, instr.as_instr(), half, pc, a, b, size)
}

/// What the next instruction completes with, unless it stops or waits. What it does may be known.
#[inline(always)]
pub fn completes(
    unit: &Pipeline<'_>,
    flow: &Flow,
    instr: &Decoded,
    known: Option<Kind>,
    half: Half,
    predicted: u32,
    operands: &Operands,
) -> Option<Done>
    requires kind { KnownAs known instr.now }
    requires half { half ≡ flow.now.half }
    requires inside { (a : ℕ) →
        outcome_in unit.now flow.now instr.now operands.now ≡ Address a →
        a + width_in instr.now.op ≤ length unit.now.committed.memory }
    requires known { youngest lacks_address flow.now.ring.stores ≡ None }
    ensures { Completes unit.now flow.now instr.now predicted operands.now result }
{
    let kind = kind_by(instr, known);
    let (value, next) = match outcome(unit, kind, flow, instr, half, operands) {
        Outcome::Value(v) | Outcome::Pair(v, _) => (v, predicted),
        Outcome::Next(x) => match kind {
            Kind::Links => (pc_plus_4(flow.future.pc), x),
            _ => (0, x),
        },
        Outcome::Address(a) => match kind {
            Kind::Loads => {
                let v = value_behind(unit, flow.ring.stores(), instr.op(), a)?;
                (v, predicted)
            }
            _ => (a, predicted),
        },
        Outcome::Stop(_) => return None,
    };
    Some(Done { value, next })
}
