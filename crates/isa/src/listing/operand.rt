//! The kinds of operands.
ghost use Rattle.std.specs.Prelude.{◌≡◌};
ghost use Rattle.isa.specs.Reading.{Reads};
ghost use Rattle.isa.specs.Operands.{number, signed_half, label, offset, offset_and_register};

use super::fault::FaultKind;
use super::register::register;
use instructions::Reg;
use lexical::{begins_number, is_name, number_in, parenthesized};

/// A number modulo 2^32: at most `below` after a minus, and at most `above` without one.
#[tactic(auto, unfolding(crate::specs::Operands::number))]
pub fn number(text: &[u8], below: u32, above: u32) -> Result<u32, FaultKind>
    ensures { Reads (λ n. n) result (number below above text.now) }
{
    if !begins_number(text) {
        return Err(FaultKind::BadOperands);
    }
    number_in(text, below, above).ok_or(FaultKind::BadNumber)
}

/// A number of 16 bits with a sign, extended to 32 bits.
pub fn signed_half(text: &[u8]) -> Result<u32, FaultKind>
    ensures { Reads (λ n. n) result (signed_half text.now) }
{
    number(text, 32768, 32767)
}

/// The name of a label.
pub fn label(text: &[u8]) -> Result<&[u8], FaultKind>
    ensures { Reads (λ t. t.now) result (label text.now) }
{
    if is_name(text) {
        Ok(text)
    } else {
        Err(FaultKind::BadOperands)
    }
}

/// An offset, which may be left out.
pub fn offset(text: &[u8]) -> Result<u32, FaultKind>
    ensures { Reads (λ n. n) result (offset text.now) }
{
    if text.is_empty() {
        Ok(0)
    } else {
        signed_half(text)
    }
}

/// The offset and the register of an operand `offset(register)`.
#[tactic(auto, unfolding(crate::specs::Operands::offset_and_register))]
pub fn offset_and_register(text: &[u8]) -> Result<(u32, Reg), FaultKind>
    ensures { Reads (λ p. (p.0, p.1)) result (offset_and_register text.now) }
{
    let (front, inner) = parenthesized(text).ok_or(FaultKind::BadOperands)?;
    let number = offset(front)?;
    let base = register(inner)?;
    Ok((number, base))
}
