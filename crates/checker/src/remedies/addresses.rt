//! Remedies of addresses: a name of data, a number and a register in any order become a number and a register.

use super::super::forms::has_offset;
use super::super::parts::Statement;
use super::data::byte_of;
use super::instead::{is_at, value_of};
use super::sentences::{Case, Remedy, Told, said};
use isa::{Operands, form_of, register_in};
use lexical::is_name;
use std::alloc::Global;

// The greatest number of a byte that is told.
const MOST_BYTE: u32 = 65_535;

// A load, a store or `la`: its word, its register, and the parts of its address, each empty where it is missing.
#[derive(Clone, Copy)]
struct Access<'a> {
    word: &'a [u8],
    value: &'a [u8],
    name: &'a [u8],
    number: &'a [u8],
    register: &'a [u8],
}

impl<'a> Access<'a> {
    // An access without an address.
    fn new(word: &'a [u8], value: &'a [u8]) -> Self {
        Access {
            word,
            value,
            name: b"",
            number: b"",
            register: b"",
        }
    }

    // The access with one more part of its address, if it can have it.
    fn with(self, part: &'a [u8]) -> Option<Self> {
        let mut found = self;
        if self.register.is_empty() && register_in(part).is_ok() {
            found.register = part;
        } else if self.number.is_empty() && value_of(part).is_some() {
            found.number = part;
        } else if self.name.is_empty() && is_name(part) {
            found.name = part;
        } else if !part.is_empty() {
            return None;
        }
        Some(found)
    }

    // The access with the parts of a text.
    fn with_all(self, text: &'a [u8]) -> Option<Self> {
        let mut found = self;
        let mut from = 0;
        for (at, byte) in text.iter().enumerate() {
            let is_minus = *byte == b'-';
            if is_minus || b"+()[] \t".contains(byte) {
                found = found.with(text.get(from..at)?)?;
                from = if is_minus { at } else { at.saturating_add(1) };
            }
        }
        found.with(text.get(from..)?)
    }

    fn is_la(&self) -> bool {
        self.word.eq_ignore_ascii_case(b"la")
    }

    // Whether a number can be put into $at, which the access does not read.
    fn frees_at(&self) -> bool {
        let stores = match form_of(self.word, 2) {
            Ok(form) => matches!(form.operands, Operands::Store),
            Err(_) => false,
        };
        !is_at(self.register) && !(stores && is_at(self.value))
    }

    // The number of the address.
    fn number(&self) -> &'a [u8] {
        match self.number {
            [] => b"0",
            number => number,
        }
    }
}

// The byte at which the name of an access stands, if it is that of data, and the byte of the address.
fn bytes_at(bytes: &[u8], access: &Access<'_>) -> Option<(i64, i64)> {
    let first = byte_of(bytes, access.name)?;
    let byte = first.wrapping_add(value_of(access.number())?);
    if byte > MOST_BYTE {
        None
    } else {
        Some((i64::from(first), i64::from(byte)))
    }
}

// The access of a statement.
fn access_in<'a>(statement: &Statement<'a>) -> Option<Access<'a>> {
    let [first, second, third] = statement.operands;
    let (value, text) = if register_in(first).is_ok() {
        (first, second)
    } else {
        (second, first)
    };
    let access = Access::new(statement.word, value);
    let is_missing = text.is_empty() || register_in(value).is_err() || statement.count > 3;
    if is_missing || !has_offset(access.word) && !access.is_la() {
        return None;
    }
    access.with_all(text)?.with_all(third)
}

// The instructions for an access without a name: with its number as it is, or with a load of it where it is too far.
fn reaching(alloc: Global, access: &Access<'_>) -> Told {
    let (near, far) = match (access.is_la(), access.register.is_empty()) {
        (true, true) => ("@5", ""),
        (true, false) => ("addiu @1,@2,@3", "addu @1,$at,@2"),
        (false, true) => ("@0 @1,@3($zero)", "@0 @1,0($at)"),
        (false, false) => ("@0 @1,@3(@2)", "addu $at,$at,@2\n@0 @1,0($at)"),
    };
    let number = access.number();
    let case = Case::of(alloc, access.word, 3, access.value, access.register, number);
    let value = value_of(number).unwrap_or(0);
    let load = case.loading(access.value, value)?;
    let found = case.tried(b"", said(near).writing(load.as_slice()))?;
    if found.is_some() || far.is_empty() || !access.frees_at() {
        return Ok(found);
    }
    case.tried(case.loading_at(value)?.as_slice(), said(far))
}

// A sentence with the instructions for an access.
fn told_of<'a>(
    alloc: Global,
    access: &Access<'a>,
    sentence: &'static str,
    name: &'a [u8],
    numbers: [i64; 2],
) -> Told {
    let Some(lines) = reaching(alloc, access)? else {
        return Ok(None);
    };
    let remedy = said(sentence).naming(name).counting(numbers);
    Case::new(alloc, b"", b"").told(Some(remedy.writing(lines.as_slice())))
}

/// The sentence for a load, a store or `la` whose address is a number and a register in another order, is too far, or
/// names data.
pub(crate) fn address(alloc: Global, bytes: &[u8], statement: &Statement<'_>) -> Told {
    let Some(access) = access_in(statement) else {
        return Ok(None);
    };
    if access.name.is_empty() {
        if access.number.is_empty() && access.register.is_empty() {
            return Ok(None);
        }
        return told_of(alloc, &access, "Write @5.", b"", [0, 0]);
    }
    let Some((first, byte)) = bytes_at(bytes, &access) else {
        return Ok(None);
    };
    let digits = format!(in alloc; "{byte}")?;
    let known = Access {
        number: digits.as_bytes(),
        ..access
    };
    told_of(
        alloc,
        &known,
        "Write @5: @4 is byte @6.",
        known.name,
        [first, 0],
    )
}

impl<'a> Case<'a> {
    /// The sentence for a load or a store whose address has a name that is not that of data.
    pub(crate) fn address_sample(&self) -> Told {
        let sentence =
            "Write the number of the byte, from 0 on, as for byte 4 in @5: data has no labels.";
        match access_in(&self.statement) {
            Some(access) if !access.name.is_empty() && !access.is_la() => {
                let known = Access {
                    number: b"4",
                    ..access
                };
                told_of(self.alloc, &known, sentence, b"", [0, 0])
            },
            _ => Ok(None),
        }
    }

    // What is said of an operand of `.word` that names data, without a register.
    fn data_in(&self, operand: &'a [u8]) -> Option<Remedy<'a>> {
        let access = Access::new(self.statement.word, b"").with_all(operand)?;
        if access.name.is_empty() || !access.register.is_empty() {
            return None;
        }
        let (first, byte) = bytes_at(self.bytes, &access)?;
        let sentence = if self.statement.count == 1 {
            "Write .word @7: @4 is byte @6."
        } else {
            "Write @7 in its place: @4 is byte @6."
        };
        Some(said(sentence).naming(access.name).counting([first, byte]))
    }

    /// What is said of a number of `.word` in whose place the name of data stands.
    pub(crate) fn data_name(&self) -> Option<Remedy<'a>> {
        if !self.statement.word.eq_ignore_ascii_case(b".word") {
            return None;
        }
        for operand in self.statement.operands {
            let found = self.data_in(operand);
            if found.is_some() {
                return found;
            }
        }
        None
    }
}
