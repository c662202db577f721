//! The layout of each operation in its word.
ghost use Rattle.std.specs.Prelude.{◌≡◌, ◌<◌};
ghost use Rattle.std.specs.List.{find};
ghost use Rattle.instructions.specs.Instruction.{operations};
ghost use Rattle.encoding.specs.Layouts.{layout as layout_by, operation_of as operation, has_layout};

use crate::fields;
use instructions::Op;

/// The shape of a word: its fields after the opcode.
#[derive(Clone, Copy, Debug, PartialEq, Eq)]
pub enum Shape {
    /// rd is written, rs and rt are read.
    ThreeRegisters,
    /// rd is written, rt is read, and there is a shift amount.
    ShiftByAmount,
    /// rd is written, rt and then rs, the shift amount, are read.
    ShiftByRegister,
    /// rs and rt are read.
    TwoRegisters,
    /// rd is written; the register that is read is not named.
    MoveFrom,
    /// rs is read; the register that is written is not named.
    MoveTo,
    /// rs is read.
    JumpRegister,
    /// rd is written, rs is read.
    LinkRegister,
    /// No register and no number.
    Bare,
    /// rt is written, rs is read, and there is an immediate with a sign.
    SignedHalf,
    /// rt is written, rs is read, and there is an immediate without a sign.
    UnsignedHalf,
    /// rt is written, and there is an immediate.
    UpperHalf,
    /// rs and rt are read, and there is an offset.
    Store,
    /// rs and rt are read, and there is a distance in words.
    BranchOnTwo,
    /// rs is read, and there is a distance in words.
    BranchOnOne,
    /// The number of a word in the region of 256 MB.
    Region,
}

/// The layout of an operation: its opcode, the field that selects it among those with that opcode, and its shape. With
/// opcode 0 the function selects, with opcode 1 the field rt; else the selecting field is 0.
#[derive(Clone, Copy)]
pub struct Layout {
    pub opcode: u32,
    pub select: u32,
    pub shape: Shape,
}

fn row(op: Op) -> (u32, u32, Shape)
    ensures opcode { result.0 ≡ (layout_by op).opcode }
    ensures select { result.1 ≡ (layout_by op).select }
    ensures shape { result.2 ≡ (layout_by op).shape }
{
    match op {
        Op::Addu => (0, 33, Shape::ThreeRegisters),
        Op::Subu => (0, 35, Shape::ThreeRegisters),
        Op::Add => (0, 32, Shape::ThreeRegisters),
        Op::Sub => (0, 34, Shape::ThreeRegisters),
        Op::And => (0, 36, Shape::ThreeRegisters),
        Op::Or => (0, 37, Shape::ThreeRegisters),
        Op::Xor => (0, 38, Shape::ThreeRegisters),
        Op::Nor => (0, 39, Shape::ThreeRegisters),
        Op::Slt => (0, 42, Shape::ThreeRegisters),
        Op::Sltu => (0, 43, Shape::ThreeRegisters),
        Op::Sll => (0, 0, Shape::ShiftByAmount),
        Op::Srl => (0, 2, Shape::ShiftByAmount),
        Op::Sra => (0, 3, Shape::ShiftByAmount),
        Op::Sllv => (0, 4, Shape::ShiftByRegister),
        Op::Srlv => (0, 6, Shape::ShiftByRegister),
        Op::Srav => (0, 7, Shape::ShiftByRegister),
        Op::Mult => (0, 24, Shape::TwoRegisters),
        Op::Multu => (0, 25, Shape::TwoRegisters),
        Op::Div => (0, 26, Shape::TwoRegisters),
        Op::Divu => (0, 27, Shape::TwoRegisters),
        Op::Mflo => (0, 18, Shape::MoveFrom),
        Op::Mfhi => (0, 16, Shape::MoveFrom),
        Op::Mtlo => (0, 19, Shape::MoveTo),
        Op::Mthi => (0, 17, Shape::MoveTo),
        Op::Addiu => (9, 0, Shape::SignedHalf),
        Op::Addi => (8, 0, Shape::SignedHalf),
        Op::Slti => (10, 0, Shape::SignedHalf),
        Op::Sltiu => (11, 0, Shape::SignedHalf),
        Op::Andi => (12, 0, Shape::UnsignedHalf),
        Op::Ori => (13, 0, Shape::UnsignedHalf),
        Op::Xori => (14, 0, Shape::UnsignedHalf),
        Op::Lui => (15, 0, Shape::UpperHalf),
        Op::Lb => (32, 0, Shape::SignedHalf),
        Op::Lbu => (36, 0, Shape::SignedHalf),
        Op::Lh => (33, 0, Shape::SignedHalf),
        Op::Lhu => (37, 0, Shape::SignedHalf),
        Op::Lw => (35, 0, Shape::SignedHalf),
        Op::Sb => (40, 0, Shape::Store),
        Op::Sh => (41, 0, Shape::Store),
        Op::Sw => (43, 0, Shape::Store),
        Op::Beq => (4, 0, Shape::BranchOnTwo),
        Op::Bne => (5, 0, Shape::BranchOnTwo),
        Op::Blez => (6, 0, Shape::BranchOnOne),
        Op::Bgtz => (7, 0, Shape::BranchOnOne),
        Op::Bltz => (1, 0, Shape::BranchOnOne),
        Op::Bgez => (1, 1, Shape::BranchOnOne),
        Op::J => (2, 0, Shape::Region),
        Op::Jal => (3, 0, Shape::Region),
        Op::Jr => (0, 8, Shape::JumpRegister),
        Op::Jalr => (0, 9, Shape::LinkRegister),
        Op::Break => (0, 13, Shape::Bare),
    }
}

/// The layout of an operation.
pub fn layout_of(op: Op) -> Layout
    ensures value { result ≡ layout_by op }
    ensures opcode { result.opcode < 64 }
    ensures select { result.select < 64 }
{
    let (opcode, select, shape) = row(op);
    Layout {
        opcode,
        select,
        shape,
    }
}

// The operation with opcode 0 and a function, where there is one.
fn by_function(function: u32) -> Option<Op>
    ensures { result ≡ find (has_layout 0 function) operations }
{
    Some(match function {
        0 => Op::Sll,
        2 => Op::Srl,
        3 => Op::Sra,
        4 => Op::Sllv,
        6 => Op::Srlv,
        7 => Op::Srav,
        8 => Op::Jr,
        9 => Op::Jalr,
        13 => Op::Break,
        16 => Op::Mfhi,
        17 => Op::Mthi,
        18 => Op::Mflo,
        19 => Op::Mtlo,
        24 => Op::Mult,
        25 => Op::Multu,
        26 => Op::Div,
        27 => Op::Divu,
        32 => Op::Add,
        33 => Op::Addu,
        34 => Op::Sub,
        35 => Op::Subu,
        36 => Op::And,
        37 => Op::Or,
        38 => Op::Xor,
        39 => Op::Nor,
        42 => Op::Slt,
        43 => Op::Sltu,
        _ => return None,
    })
}

// The operation with opcode 1 and a field rt, where there is one.
fn by_register(rt: u32) -> Option<Op>
    ensures { result ≡ find (has_layout 1 rt) operations }
{
    Some(match rt {
        0 => Op::Bltz,
        1 => Op::Bgez,
        _ => return None,
    })
}

// The operation with an opcode above 1, where there is one.
fn by_opcode(opcode: u32) -> Option<Op>
    requires { 1 < opcode }
    ensures { result ≡ find (has_layout opcode 0) operations }
{
    Some(match opcode {
        2 => Op::J,
        3 => Op::Jal,
        4 => Op::Beq,
        5 => Op::Bne,
        6 => Op::Blez,
        7 => Op::Bgtz,
        8 => Op::Addi,
        9 => Op::Addiu,
        10 => Op::Slti,
        11 => Op::Sltiu,
        12 => Op::Andi,
        13 => Op::Ori,
        14 => Op::Xori,
        15 => Op::Lui,
        32 => Op::Lb,
        33 => Op::Lh,
        35 => Op::Lw,
        36 => Op::Lbu,
        37 => Op::Lhu,
        40 => Op::Sb,
        41 => Op::Sh,
        43 => Op::Sw,
        _ => return None,
    })
}

/// The operation with the opcode and the selecting field of a word.
#[inline(always)]
#[tactic(auto, unfolding(crate::specs::Layouts::operation_of))]
pub fn operation_of(word: u32) -> Option<Op>
    ensures { result ≡ operation word }
{
    let opcode = fields::opcode(word);
    let select = fields::select(word);
    match opcode {
        0 => by_function(select),
        1 => by_register(select),
        _ => by_opcode(opcode),
    }
}
