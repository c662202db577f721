//! From an instruction to its word.
ghost use Rattle.std.specs.Prelude.{◌≡◌, ◌≢◌, ℕ, ◌<◌, ◌^◌, Some, IfSome, IsNone, IsTrue};
ghost use Rattle.encoding.specs.Words.{instruction_of, decode as decode_of, written as written_of, packed as packed_of, registers as registers_of, immediate as immediate_of, distance as distance_of};

use crate::decoding::{Decoded, decode};
use crate::layout::{Layout, Shape, layout_of};
use instructions::{Op, Reg, pc_plus_4};

fn immediate(rs: Reg, rt: u32, number: u32) -> u32
    ensures value { result ≡ immediate_of rs rt number }
    ensures small { result < 2 ^ 26 }
{
    (u32::from(rs.number()) % 32 << 21) + ((rt % 32 << 16) + number % 0x1_0000)
}

fn registers(rs: Reg, rt: Reg, rd: Reg, shift: u32, function: u32) -> u32
    requires shift { shift < 32 }
    requires function { function < 64 }
    ensures value { result ≡ registers_of rs rt rd shift function }
    ensures small { result < 2 ^ 26 }
{
    let low = (u32::from(rd.number()) % 32 << 11) + ((shift << 6) + function);
    (u32::from(rs.number()) % 32 << 21) + ((u32::from(rt.number()) % 32 << 16) + low)
}

fn distance(pc: u32, target: u32) -> u32
    ensures { result ≡ distance_of pc target }
{
    target.wrapping_sub(pc_plus_4(pc)) / 4
}

#[tactic(auto, unfolding(crate::specs::Words::written))]
fn written(layout: Layout, pc: u32, decoded: &Decoded) -> u32
    requires { layout.select < 64 }
    ensures value { result ≡ written_of layout.shape layout.select pc (instruction_of decoded.now) }
    ensures small { result < 2 ^ 26 }
{
    let (target, first, second) = (decoded.target, decoded.first, decoded.second);
    let number = decoded.number;
    let select = layout.select;
    let none = Reg::ZERO;
    match layout.shape {
        Shape::ThreeRegisters => registers(first, second, target, 0, select),
        Shape::ShiftByAmount => registers(none, first, target, number % 32, select),
        Shape::ShiftByRegister => registers(second, first, target, 0, select),
        Shape::TwoRegisters => registers(first, second, none, 0, select),
        Shape::MoveFrom => registers(none, none, target, 0, select),
        Shape::MoveTo => registers(first, none, none, 0, select),
        Shape::JumpRegister => registers(first, none, none, 0, select),
        Shape::LinkRegister => registers(first, none, target, 0, select),
        Shape::Bare => registers(none, none, none, 0, select),
        Shape::SignedHalf | Shape::UnsignedHalf => {
            immediate(first, u32::from(target.number()), number)
        }
        Shape::UpperHalf => immediate(none, u32::from(target.number()), number),
        Shape::Store => immediate(first, u32::from(second.number()), number),
        Shape::BranchOnTwo => { immediate(first, u32::from(second.number()), distance(pc, number)) }
        Shape::BranchOnOne => immediate(first, select % 32, distance(pc, number)),
        Shape::Region => number / 4 % 0x400_0000,
    }
}

fn packed(decoded: &Decoded, pc: u32) -> u32
    ensures { result ≡ packed_of pc (instruction_of decoded.now) }
{
    let layout = layout_of(decoded.op);
    (layout.opcode << 26) + written(layout, pc, decoded)
}

// Whether two operations are equal: a comparison of its own, since it has 51 by 51 cases.
fn same_op(said: Op, op: Op) -> bool
    ensures yes { IsTrue result → said ≡ op }
    ensures no { said ≡ op → IsTrue result }
{
    said == op
}

fn is_same(said: &Decoded, decoded: &Decoded) -> bool
    ensures yes { IsTrue result → said.now ≡ decoded.now }
    ensures no { said.now ≡ decoded.now → IsTrue result }
{
    same_op(said.op, decoded.op)
        && said.target.number() == decoded.target.number()
        && said.first.number() == decoded.first.number()
        && said.second.number() == decoded.second.number()
        && said.number == decoded.number
}

/// The word that says an instruction at the address `pc`. None where no word says it: where a number
/// does not fit, a target is out of reach, or a register is named that the operation does not have.
pub fn encode(decoded: &Decoded, pc: u32) -> Option<u32>
    ensures some { IfSome result (λ word. decode_of pc word ≡ Some (instruction_of decoded.now)) }
    ensures none { IsNone result → (word : ℕ) → word < 2 ^ 32
        → decode_of pc word ≢ Some (instruction_of decoded.now) }
{
    let word = packed(decoded, pc);
    match decode(word, pc) {
        Some(said) if is_same(&said, decoded) => Some(word),
        _ => None,
    }
}
