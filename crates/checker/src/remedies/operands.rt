//! Remedies of operands, registers and numbers.

use super::super::forms::takes_label;
use super::super::parts::Statement;
use super::sentences::{Case, Remedy, said};
use isa::register_in;
use lexical::{begins_number, decimal_in, is_name, number_in, parenthesized};
use std::alloc::{AllocError, Global};

// Whether a name is that of a register, behind a `$`.
fn is_register(alloc: Global, name: &[u8]) -> Result<bool, AllocError> {
    let register: [&[u8]; 2] = [b"$", name];
    Ok(register_in(register.concat(alloc)?.as_slice()).is_ok())
}

// The remedy of an operand that names a register, where only its `$` is missing.
fn without_dollar<'a>(alloc: Global, operand: &'a [u8]) -> Result<Option<Remedy<'a>>, AllocError> {
    let remedy = said("Write $@4: a register begins with $.");
    Ok(match operand {
        [b'r' | b'R', number @ ..] if decimal_in(number, 31).is_some() => {
            Some(remedy.naming(number))
        },
        [b'x', number @ ..] if decimal_in(number, 31).is_some() => {
            let sentence = "Write one of $0 to $31, or a name, as $t0: @4 is a register of RISC-V.";
            Some(said(sentence).naming(operand))
        },
        _ if is_name(operand) && is_register(alloc, operand)? => Some(remedy.naming(operand)),
        _ => None,
    })
}

// The remedy of an operand that is no register, number or address.
fn odd<'a>(alloc: Global, operand: &'a [u8]) -> Result<Option<Remedy<'a>>, AllocError> {
    if let [b'\'', letter, b'\''] = operand {
        let remedy = said("Write @6: a character is written by its number.");
        return Ok(Some(remedy.counting([i64::from(*letter), 0])));
    }
    if operand.contains(&b'[') {
        return Ok(Some(said("Write the register of an address in parentheses, as in 4($sp).")));
    }
    let register = parenthesized(operand).map_or(operand, |(_, register)| register);
    let found = without_dollar(alloc, register)?;
    let has_blank = operand.contains(&b' ') || operand.contains(&b'\t');
    if found.is_none() && has_blank && !operand.contains(&b'(') {
        return Ok(Some(said("Write a comma between two operands.")));
    }
    Ok(found)
}

// The remedy of a branch on two registers that names one alone.
fn one_register<'a>(statement: &Statement<'a>) -> Option<Remedy<'a>> {
    let [first, second, _] = statement.operands;
    let is_short = statement.count == 2 && takes_label(statement.word, 3, 2);
    if is_short && register_in(first).is_ok() && is_name(second) {
        return Some(said("Write the register that @1 is compared with, as in @0 @1,$zero,@2."));
    }
    None
}

// What is said of a register that there is not, by its name.
fn no_register(name: &[u8]) -> Option<&'static str> {
    Some(match name {
        [b'0'..=b'9', ..] => "Write one of $0 to $31, or a name, as $t0.",
        [b't', b'0'..=b'9', ..] => "Write one of $t0 to $t9.",
        [b's', b'0'..=b'9', ..] => "Write one of $s0 to $s8.",
        [b'a', b'0'..=b'9', ..] => "Write one of $a0 to $a3.",
        [b'v', b'0'..=b'9', ..] => "Write $v0 or $v1.",
        [b'k', b'0'..=b'9', ..] => "Write $k0 or $k1.",
        [b'f', ..] => "Write a general register, as $t0: there are none of floating point.",
        [b'l' | b'L', b'o' | b'O'] | [b'h' | b'H', b'i' | b'I'] => {
            "Write mflo or mfhi to read LO or HI, and mtlo or mthi to write them."
        },
        _ => return None,
    })
}

impl<'a> Case<'a> {
    /// What is said of the first operand that is of no kind, where no label is to stand.
    pub(crate) fn odd_operand(&self) -> Result<Option<Remedy<'a>>, AllocError> {
        let statement = &self.statement;
        for (at, operand) in statement.operands.into_iter().enumerate() {
            let found = odd(self.alloc, operand)?;
            let is_label = takes_label(statement.word, statement.count, at);
            if is_label && begins_number(operand) {
                return Ok(Some(said(
                    "Write the name of a label, and that label where it leads: a branch or a jump goes to a label.",
                )));
            }
            if found.is_some() && !is_label {
                return Ok(found);
            }
        }
        Ok(one_register(statement))
    }

    /// What is said of a register that there is not.
    pub(crate) fn bad_register(&self) -> Result<Option<Remedy<'a>>, AllocError> {
        for text in self.statement.operands {
            let [b'$', name @ ..] = text else {
                continue;
            };
            let lower = name.to_ascii_lowercase(self.alloc)?;
            if register_in(text).is_ok() {
                continue;
            }
            if is_register(self.alloc, lower.as_slice())? {
                return Ok(Some(said("Write @8: names of registers are in lower case.").naming(
                    text,
                )));
            }
            if let Some(sentence) = no_register(name) {
                return Ok(Some(said(sentence)));
            }
        }
        Ok(None)
    }
}

/// The last operand without the zeros before it, if there are some.
pub(crate) fn bare_number<'a>(statement: &Statement<'a>) -> Option<&'a [u8]> {
    let last = statement.last();
    let mut bare = last;
    while let [b'0', after @ ..] = bare {
        if !begins_number(after) {
            break;
        }
        bare = after;
    }
    if bare.len() < last.len() && number_in(bare, 0, 0xffff_ffff).is_some() {
        Some(bare)
    } else {
        None
    }
}

/// Whether digits have the same value where numbers with a zero before them are octal: one digit alone, or others than
/// those of octal numbers.
pub(crate) fn is_clear(digits: &[u8]) -> bool {
    digits.len() < 2 || digits.iter().any(|digit| !matches!(*digit, b'0'..=b'7'))
}

/// The remedy of a number that is none, or out of its range, if no instructions can be written in place of its own. Of
/// `.space` the next multiple of 4 is told.
pub(crate) fn bad_number<'a>(statement: &Statement<'a>) -> Option<Remedy<'a>> {
    let [first, _, _] = statement.operands;
    if statement.word.eq_ignore_ascii_case(b".space") {
        let whole = (number_in(first, 0, 65532)? | 3).wrapping_add(1);
        return Some(said("Write .space @6.").counting([i64::from(whole), 0]));
    }
    if statement.last().contains(&b'.') {
        return Some(said("Write a whole number: there are no fractions."));
    }
    None
}
