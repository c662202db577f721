//! From a word to an instruction.
ghost use Rattle.std.specs.Prelude.{◌≡◌, IfSome, Some};
ghost use Rattle.std.specs.Option.{option_map};
ghost use Rattle.isa.specs.Statement.{implied_target as implied_target_of, implied_source as implied_source_of};
ghost use Rattle.encoding.specs.Words.{instruction_of, decode as decode_of, decode_as as decode_as_of, read as read_of, branch_target as branch_target_of, region_target as region_target_of};

use crate::fields;
use crate::layout::{Layout, Shape, layout_of, operation_of};
use instructions::{Instr, Op, Reg, pc_plus_4};

/// The instruction of a word: an operation, the registers that it writes and reads (register 0 where it
/// has none), and its number. A target is an address.
#[derive(Clone, Copy, Debug, PartialEq, Eq)]
pub struct Decoded {
    pub op: Op,
    pub target: Reg,
    pub first: Reg,
    pub second: Reg,
    pub number: u32,
}

impl From<Decoded> for Instr {
    ghost from_gives = { λ said instr. instr ≡ instruction_of said };

    fn from(said: Decoded) -> Instr {
        Instr::new(said.op, said.target, said.first, said.second, said.number)
    }
}

impl From<Instr> for Decoded {
    ghost from_gives = { λ instr decoded. instruction_of decoded ≡ instr };

    fn from(instr: Instr) -> Decoded {
        Decoded {
            op: instr.op,
            target: instr.target,
            first: instr.first,
            second: instr.second,
            number: instr.number,
        }
    }
}

fn branch_target(word: u32, pc: u32) -> u32
    ensures { result ≡ branch_target_of pc word }
{
    pc_plus_4(pc).wrapping_add(fields::signed_half(word).wrapping_mul(4))
}

fn region_target(word: u32, pc: u32) -> u32
    ensures { result ≡ region_target_of pc word }
{
    (pc_plus_4(pc) >> 28 << 28) + 4 * fields::index(word)
}

// The register that an operation writes without naming it.
fn implied_target(op: Op) -> Reg
    ensures { result ≡ implied_target_of op }
{
    match op {
        Op::Jal | Op::Jalr => Reg::LINK,
        Op::Mtlo => Reg::LO,
        Op::Mthi => Reg::HI,
        _ => Reg::ZERO,
    }
}

// The register that an operation reads without naming it.
fn implied_source(op: Op) -> Reg
    ensures { result ≡ implied_source_of op }
{
    match op {
        Op::Mflo => Reg::LO,
        Op::Mfhi => Reg::HI,
        _ => Reg::ZERO,
    }
}

// The instruction of a word whose operation is known, unless a field is set that the shape does not use.
#[inline(always)]
#[tactic(auto, unfolding(crate::specs::Words::read))]
fn read(op: Op, layout: Layout, word: u32, pc: u32) -> Option<Decoded>
    ensures value { option_map instruction_of result ≡ read_of layout.shape layout.select op pc word }
    ensures op { IfSome result (λ decoded. decoded.op ≡ op) }
{
    let (rs, rt, rd) = (fields::rs(word), fields::rt(word), fields::rd(word));
    let shift = fields::shift(word);
    let half = fields::half(word);
    let signed = fields::signed_half(word);
    let (written, source) = (implied_target(op), implied_source(op));
    let none = Reg::ZERO;
    let (fits, target, first, second, number) = match layout.shape {
        Shape::ThreeRegisters => (shift == 0, rd, rs, rt, 0),
        Shape::ShiftByAmount => (rs.number() == 0, rd, rt, none, shift),
        Shape::ShiftByRegister => (shift == 0, rd, rt, rs, 0),
        Shape::TwoRegisters => ((word >> 6) % 0x400 == 0, none, rs, rt, 0),
        Shape::MoveFrom => {
            let fits = (word >> 16) % 0x400 == 0 && shift == 0;
            (fits, rd, source, none, 0)
        }
        Shape::MoveTo => ((word >> 6) % 0x8000 == 0, written, rs, none, 0),
        Shape::JumpRegister => ((word >> 6) % 0x8000 == 0, none, rs, none, 0),
        Shape::LinkRegister => (rt.number() == 0 && shift == 0, rd, rs, none, 0),
        Shape::Bare => ((word >> 6) % 0x10_0000 == 0, none, none, none, 0),
        Shape::SignedHalf => (true, rt, rs, none, signed),
        Shape::UnsignedHalf => (true, rt, rs, none, half),
        Shape::UpperHalf => (rs.number() == 0, rt, none, none, half),
        Shape::Store => (true, none, rs, rt, signed),
        Shape::BranchOnTwo => (true, none, rs, rt, branch_target(word, pc)),
        Shape::BranchOnOne => {
            let selected = u32::from(rt.number()) == layout.select;
            (selected, none, rs, none, branch_target(word, pc))
        }
        Shape::Region => (true, written, none, none, region_target(word, pc)),
    };
    if !fits {
        return None;
    }
    Some(Decoded {
        op,
        target,
        first,
        second,
        number,
    })
}

/// The instruction of a word at the address `pc`, read as one of the operation `op`, unless a bit is set that the operation
/// does not use. `decode` reads a word as one of its `operation_of`.
#[inline(always)]
pub fn decode_as(op: Op, word: u32, pc: u32) -> Option<Decoded>
    ensures value { option_map instruction_of result ≡ decode_as_of pc word (Some op) }
    ensures op { IfSome result (λ decoded. decoded.op ≡ op) }
{
    read(op, layout_of(op), word, pc)
}

/// The instruction of a word at the address `pc`, if it is one of the language's operations with no bit
/// set that the operation does not use.
#[tactic(auto, unfolding(crate::specs::Words::decode))]
pub fn decode(word: u32, pc: u32) -> Option<Decoded>
    ensures { option_map instruction_of result ≡ decode_of pc word }
{
    let op = operation_of(word)?;
    decode_as(op, word, pc)
}
