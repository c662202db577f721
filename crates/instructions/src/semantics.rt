//! The outcome of each operation.
ghost use Rattle.std.specs.Prelude.{◌≡◌, ℕ, ◌<◌, ◌≤◌, ◌+◌, true, Ok, IfOk};
ghost use Rattle.instructions.specs.declared.op.Half.TheVariants.{Low, High};
ghost use Rattle.instructions.specs.declared.op.Kind.TheVariants.{Computes};
ghost use Rattle.std.specs.Int.{w32};
ghost use Rattle.instructions.specs.Instruction.{is_pair as is_pair_of, kind as kind_of, pc_plus_4 as pc_plus_4_of, width as width_of};
ghost use Rattle.instructions.specs.Operations.{signed, fitted, flag as flag_of, shifted_signed as shifted_signed_by, computed_by, jump_target as jump_target_of, checked_address as checked_address_of, outcome as whole_outcome, outcome_of as half_outcome, loaded as loaded_of, AddressIsInside};

use crate::products::{divided, product, signed_divided, signed_product};
use crate::{Half, Instr, Kind, Op, Outcome, Stop};

/// The address after the instruction at `pc`.
pub fn pc_plus_4(pc: u32) -> u32
    ensures { result ≡ pc_plus_4_of pc }
{
    pc.wrapping_add(4)
}

fn checked_sum(a: u32, b: u32) -> Result<u32, Stop>
    ensures { result ≡ Rattle.instructions.specs.Operations.checked_sum a b }
{
    match a.cast_signed().checked_add(b.cast_signed()) {
        Some(sum) => Ok(sum.cast_unsigned()),
        None => Err(Stop::Overflow),
    }
}

fn checked_difference(a: u32, b: u32) -> Result<u32, Stop>
    ensures { result ≡ Rattle.instructions.specs.Operations.checked_difference a b }
{
    match a.cast_signed().checked_sub(b.cast_signed()) {
        Some(difference) => Ok(difference.cast_unsigned()),
        None => Err(Stop::Overflow),
    }
}

fn shifted_signed(a: u32, n: u32) -> u32
    requires { n < 32 }
    ensures { result ≡ shifted_signed_by a n }
{
    (a.cast_signed() >> n).cast_unsigned()
}

fn flag(holds: bool) -> Result<u32, Stop>
    ensures { result ≡ flag_of holds }
{
    Ok(u32::from(holds))
}

// The values of a multiplication or division for LO and HI. It stands apart, so that the code of
// the other operations needs no room for it: among them it cost the in-order machine half of its
// speed.
#[inline(never)]
#[tactic(auto, unfolding(crate::specs::Operations::computed_by))]
fn pair_values(op: Op, a: u32, b: u32) -> (u32, u32)
    requires { is_pair_of op ≡ true }
    ensures computes { kind_of op ≡ Computes }
    ensures low { (i : ℕ) → computed_by op Low a b i ≡ Ok result.0 }
    ensures high { (i : ℕ) → computed_by op High a b i ≡ Ok result.1 }
{
    let (x, y) = (a.cast_signed(), b.cast_signed());
    match op {
        Op::Mult => (
            signed_product(Half::Low, x, y),
            signed_product(Half::High, x, y),
        ),
        Op::Multu => (product(Half::Low, a, b), product(Half::High, a, b)),
        Op::Div => (
            signed_divided(Half::Low, x, y),
            signed_divided(Half::High, x, y),
        ),
        _ => (divided(Half::Low, a, b), divided(Half::High, a, b)),
    }
}

#[inline(always)]
#[tactic(auto, unfolding(crate::specs::Operations::computed_by))]
fn computed(op: Op, half: Half, a: u32, b: u32, i: u32) -> Result<u32, Stop>
    ensures { result ≡ computed_by op half a b i }
{
    match op {
        Op::Mult | Op::Multu | Op::Div | Op::Divu => {
            let (low, high) = pair_values(op, a, b);
            Ok(match half {
                Half::Low => low,
                Half::High => high,
            })
        }
        Op::Addu => Ok(a.wrapping_add(b)),
        Op::Subu => Ok(a.wrapping_sub(b)),
        Op::Add => checked_sum(a, b),
        Op::Sub => checked_difference(a, b),
        Op::And => Ok(a & b),
        Op::Or => Ok(a | b),
        Op::Xor => Ok(a ^ b),
        Op::Nor => Ok(!(a | b)),
        Op::Slt => flag(a.cast_signed() < b.cast_signed()),
        Op::Sltu => flag(a < b),
        Op::Sll => Ok(a.wrapping_shl(i)),
        Op::Srl => Ok(a.wrapping_shr(i)),
        Op::Sra => Ok(shifted_signed(a, i % 32)),
        Op::Sllv => Ok(a.wrapping_shl(b)),
        Op::Srlv => Ok(a.wrapping_shr(b)),
        Op::Srav => Ok(shifted_signed(a, b % 32)),
        Op::Mflo | Op::Mfhi | Op::Mtlo | Op::Mthi => Ok(a),
        Op::Addiu => Ok(a.wrapping_add(i)),
        Op::Addi => checked_sum(a, i),
        Op::Slti => flag(a.cast_signed() < i.cast_signed()),
        Op::Sltiu => flag(a < i),
        Op::Andi => Ok(a & i),
        Op::Ori => Ok(a | i),
        Op::Xori => Ok(a ^ i),
        Op::Lui => Ok(i.wrapping_shl(16)),
        _ => Err(Stop::Break),
    }
}

fn taken_if(taken: bool, pc: u32, to: u32) -> u32
    ensures { result ≡ Rattle.instructions.specs.Operations.taken_if taken pc to }
{
    if taken { to } else { pc_plus_4(pc) }
}

#[inline(always)]
#[tactic(auto, unfolding(crate::specs::Operations::jump_target))]
fn jump_target(op: Op, pc: u32, a: u32, b: u32, to: u32) -> u32
    ensures { result ≡ jump_target_of op pc a b to }
{
    match op {
        Op::Beq => taken_if(a == b, pc, to),
        Op::Bne => taken_if(a != b, pc, to),
        Op::Blez => taken_if(a.cast_signed() <= 0, pc, to),
        Op::Bgtz => taken_if(0 < a.cast_signed(), pc, to),
        Op::Bltz => taken_if(a.cast_signed() < 0, pc, to),
        Op::Bgez => taken_if(0 <= a.cast_signed(), pc, to),
        Op::Jr | Op::Jalr => a,
        _ => to,
    }
}

#[tactic(auto, unfolding(crate::specs::Operations::checked_address))]
fn checked_address(width: u32, at: u32, size: u32) -> Result<u32, Stop>
    requires positive { 0 < width }
    requires small { width ≤ 4 }
    ensures value { result ≡ checked_address_of width at size }
    ensures inside { IfOk result (λ a. a + width ≤ size) }
{
    if at % width == 0 {
        if u64::from(at) + u64::from(width) <= u64::from(size) {
            Ok(at)
        } else {
            Err(Stop::OutOfRange)
        }
    } else {
        Err(Stop::Unaligned)
    }
}

/// The outcome of an instruction at `pc`, where `a` and `b` are its sources 1 and 2 (anything where
/// it has none) and data memory has `size` bytes. The rules are those of the MIPS I manual; jumps
/// have no delay slot.
#[inline(always)]
pub fn outcome(instr: &Instr, pc: u32, a: u32, b: u32, size: u32) -> Outcome
    ensures value { result ≡ whole_outcome instr.now pc a b size }
    ensures inside { AddressIsInside result (width_of instr.now.op) size }
{
    if instr.op.is_pair() {
        let (low, high) = pair_values(instr.op, a, b);
        Outcome::Pair(low, high)
    } else {
        outcome_of(instr, Half::Low, pc, a, b, size)
    }
}

/// The outcome of a half of an instruction at `pc`, as `outcome` has it for the whole: of a
/// multiplication or division its own value.
#[inline(always)]
pub fn outcome_of(instr: &Instr, half: Half, pc: u32, a: u32, b: u32, size: u32) -> Outcome
    ensures value { result ≡ half_outcome instr.now half pc a b size }
    ensures inside { AddressIsInside result (width_of instr.now.op) size }
{
    outcome_by_kind(instr.op.kind(), instr, half, pc, a, b, size)
}

/// The outcome of a half of an instruction, as `outcome_of` has it, for a caller that has its kind at hand.
#[inline(always)]
pub fn outcome_by_kind(
    kind: Kind,
    instr: &Instr,
    half: Half,
    pc: u32,
    a: u32,
    b: u32,
    size: u32,
) -> Outcome
    requires { kind ≡ kind_of instr.now.op }
    ensures value { result ≡ half_outcome instr.now half pc a b size }
    ensures inside { AddressIsInside result (width_of instr.now.op) size }
{
    let op = instr.op;
    match kind {
        Kind::Computes => match computed(op, half, a, b, instr.number) {
            Ok(value) => Outcome::Value(value),
            Err(stop) => Outcome::Stop(stop),
        },
        Kind::Jumps | Kind::Links => Outcome::Next(jump_target(op, pc, a, b, instr.number)),
        Kind::Loads | Kind::Stores => {
            match checked_address(op.width(), a.wrapping_add(instr.number), size) {
                Ok(address) => Outcome::Address(address),
                Err(stop) => Outcome::Stop(stop),
            }
        }
    }
}

/// A load's bytes, read as an unsigned little endian number, extended as the operation says.
/// As in MIPS I `lb` and `lh` extend the sign, `lbu` and `lhu` do not.
#[tactic(auto, unfolding(crate::specs::Operations::loaded))]
pub fn loaded(op: Op, raw: u32) -> u32
    ensures { result ≡ loaded_of op raw }
{
    match op {
        Op::Lb => i32::from(((raw % 0x100) as u8).cast_signed()).cast_unsigned(),
        Op::Lh => i32::from(((raw % 0x1_0000) as u16).cast_signed()).cast_unsigned(),
        _ => raw,
    }
}
