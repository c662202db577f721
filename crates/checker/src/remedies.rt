//! Remedies of faults, in a sentence or two: first what to write, and then why. Proved of a remedy is alone that each of its
//! bytes is shown without harm.

mod addresses;
mod data;
mod instead;
mod labels;
mod operands;
mod sentences;
mod tables;
pub(crate) mod warned;
mod words;

use super::marks::other_comment;
use isa::{FaultKind, Marked};
use lexical::{is_blank, is_plain};
use sentences::{Case, Remedy, Told, is_taken, said};
use std::alloc::{AllocError, Global};
use tables::CHARACTERS;

// The first bytes of an executable.
const EXECUTABLE: &[u8] = b"\x7fELF";

// The most bytes of operands between which commas are written.
const MOST_BYTES: usize = 60;

// The remedy of the first character that is not allowed before a comment.
fn of_character(bytes: &[u8], code: &[u8]) -> Option<Remedy<'static>> {
    if bytes.starts_with(EXECUTABLE) {
        return Some(said("Write ./ruu listing FILE for its listing: this is an executable."));
    }
    let at = code.iter().position(|byte| !is_plain(*byte))?;
    let (_, odd) = code.split_at(at);
    Some(
        match CHARACTERS
            .iter()
            .find(|character| odd.starts_with(character.bytes))
        {
            Some(found) => {
                let remedy = said("@4: the character is @5.").naming(found.help.as_bytes());
                remedy.writing(found.name.as_bytes())
            },
            None => said(
                "Leave it out, or write it in a comment: letters and signs beyond ASCII stand there alone.",
            ),
        },
    )
}

// A word, and after it operands with a comma in place of the blanks between two of them.
fn with_commas(alloc: Global, word: &[u8], operands: &[u8]) -> Result<Vec<u8>, AllocError> {
    let mut line = word.to_vec(alloc)?;
    let mut before = b' ';
    let mut is_apart = true;
    for byte in operands {
        if is_apart && !is_blank(*byte) && before != b',' && *byte != b',' {
            line.push(if before == b' ' { b' ' } else { b',' })?;
        }
        is_apart = is_blank(*byte);
        if !is_apart {
            line.push(*byte)?;
            before = *byte;
        }
    }
    Ok(line)
}

// The first of some sentences that there is: each is looked for where those before it are not there.
macro_rules! first_of {
    ($($found:expr;)+) => {{
        $(if let Some(sentence) = $found? {
            return Ok(Some(sentence));
        })+
        Ok(None)
    }};
}

impl<'a> Case<'a> {
    // The statement with commas between its operands, if the language takes it so.
    fn commas(&self) -> Told {
        let operands = self.parts.operands.unwrap_or(b"");
        if operands.is_empty() || operands.len() > MOST_BYTES {
            return Ok(None);
        }
        let line = with_commas(self.alloc, self.parts.word, operands)?;
        if !is_taken(self.alloc, line.as_slice())? {
            return Ok(None);
        }
        self.told(Some(said("Write @5.").writing(line.as_slice())))
    }

    // The statement with its address or its commas as the language has them, if that is all that is wrong.
    fn rewritten(&self) -> Told {
        if words::second(&self.parts).is_some() {
            return Ok(None);
        }
        first_of! {
            addresses::address(self.alloc, self.bytes, &self.statement);
            self.told(self.data_name());
            self.commas();
        }
    }

    // What is said of a line with more than a statement, or with a comment of another language.
    fn of_line(&self) -> Option<Remedy<'a>> {
        if let Some(word) = words::second(&self.parts) {
            return Some(said("Write @4 in the next line: a line has one statement.").naming(word));
        }
        other_comment(self.parts.code)?;
        Some(said("Write # before a comment, in each of its lines."))
    }

    // What is said of a statement before instructions are tried in its place, if anything is.
    fn said_first(&self, kind: FaultKind) -> Result<Option<Remedy<'a>>, AllocError> {
        match kind {
            FaultKind::UnknownOp => Ok(words::row_of_word(self.statement.word)),
            FaultKind::BadOperands => self.odd_operand(),
            FaultKind::BadRegister => self.bad_register(),
            _ => Ok(operands::bad_number(&self.statement)),
        }
    }

    // What is said where no instructions can be written in place of a statement, if anything is.
    fn said_last(&self, kind: FaultKind) -> Result<Option<Remedy<'a>>, AllocError> {
        if kind == FaultKind::UnknownOp {
            return self.unknown_word();
        }
        if operands::bare_number(&self.statement).is_none() {
            return Ok(None);
        }
        let sentence = "Write a decimal number, without a zero before it: there are no octal ones.";
        Ok(Some(said(sentence)))
    }

    // The instructions to write in place of a statement, or else what is said of it last, or an example.
    fn in_its_place(&self, kind: FaultKind) -> Told {
        if kind == FaultKind::BadRegister {
            return Ok(None);
        }
        first_of! {
            self.instead();
            self.address_sample();
            self.told(self.said_last(kind)?);
            self.sample();
        }
    }

    // The remedy of a fault of a statement: of its word, operands, registers or numbers.
    fn of_statement(&self, kind: FaultKind) -> Told {
        first_of! {
            self.rewritten();
            self.told(self.of_line());
            self.told(self.said_first(kind)?);
            self.in_its_place(kind);
        }
    }
}

/// The remedy of the fault of a line; a text without a byte where none is known.
pub(crate) fn remedy(
    alloc: Global,
    bytes: &[u8],
    line: &[u8],
    found: Marked,
) -> Result<Vec<u8>, AllocError> {
    let case = Case::new(alloc, bytes, line);
    let told = match found.fault.kind {
        FaultKind::NotAscii => case.told(of_character(bytes, case.parts.code)),
        FaultKind::DoubleLabel => case.double_label(found.at),
        FaultKind::UnknownLabel => case.unknown_label(),
        FaultKind::TooLong | FaultKind::Memory => Ok(None),
        kind => case.of_statement(kind),
    };
    Ok(told?.unwrap_or(Vec::new(alloc)))
}
