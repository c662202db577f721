//! Sentences with places, and how these are filled by what is known of a line.

use super::super::parts::{Parts, Statement, parts_of};
use isa::{FaultKind, parse};
use std::alloc::{AllocError, Global};

// The most bytes of a text that are quoted.
const MOST_QUOTED: usize = 60;

/// A line of a listing: the bytes of that, the parts of the line, and its statement or another one in its place.
#[derive(Clone, Copy)]
pub(crate) struct Case<'a> {
    pub alloc: Global,
    pub bytes: &'a [u8],
    pub parts: Parts<'a>,
    pub statement: Statement<'a>,
}

/// A sentence that is told, if there is one.
pub(crate) type Told = Result<Option<Vec<u8>>, AllocError>;

/// A sentence with places, `@` and a digit: the word of the statement is 0, its operands are 1 to 3, a text is 4, also in
/// lower case as 8, instructions or other words are 5, and numbers are 6 and 7.
#[derive(Clone, Copy)]
pub(crate) struct Remedy<'a> {
    sentence: &'static str,
    text: &'a [u8],
    lines: &'a [u8],
    numbers: [i64; 2],
}

/// A sentence, of which the places of texts and numbers are empty.
pub(crate) fn said<'a>(sentence: &'static str) -> Remedy<'a> {
    Remedy {
        sentence,
        text: b"",
        lines: b"",
        numbers: [0, 0],
    }
}

impl<'a> Remedy<'a> {
    pub(crate) fn naming(self, text: &'a [u8]) -> Self {
        Remedy { text, ..self }
    }

    pub(crate) fn writing(self, lines: &'a [u8]) -> Self {
        Remedy { lines, ..self }
    }

    pub(crate) fn counting(self, numbers: [i64; 2]) -> Self {
        Remedy { numbers, ..self }
    }
}

/// Whether the listing language takes these lines, in a listing that has their labels.
pub(crate) fn is_taken(alloc: Global, lines: &[u8]) -> Result<bool, AllocError> {
    match parse(alloc, lines) {
        Ok(_) => Ok(true),
        Err(fault) if fault.kind == FaultKind::Memory => Err(AllocError),
        Err(fault) => Ok(fault.kind == FaultKind::UnknownLabel),
    }
}

impl<'a> Case<'a> {
    /// A line of a listing.
    pub(crate) fn new(alloc: Global, bytes: &'a [u8], line: &'a [u8]) -> Self {
        let parts = parts_of(line);
        Case {
            alloc,
            bytes,
            parts,
            statement: parts.statement(),
        }
    }

    /// A statement alone: a word, the number of its operands, and these.
    pub(crate) fn of(
        alloc: Global,
        word: &'a [u8],
        count: usize,
        first: &'a [u8],
        second: &'a [u8],
        third: &'a [u8],
    ) -> Self {
        let case = Case::new(alloc, b"", b"");
        let operands = [first, second, third];
        let statement = Statement {
            word,
            count,
            operands,
        };
        Case { statement, ..case }
    }

    // What stands in a place; dots for a text that is missing, or long.
    fn in_place(&self, remedy: Remedy<'_>, place: u8) -> Result<Vec<u8>, AllocError> {
        let alloc = self.alloc;
        let [first, second, third] = self.statement.operands;
        let [number, more] = remedy.numbers;
        let known = match place {
            b'6' => return Ok(format!(in alloc; "{number}")?.into_bytes()),
            b'7' => return Ok(format!(in alloc; "{more}")?.into_bytes()),
            b'8' => return remedy.text.to_ascii_lowercase(alloc),
            b'0' => self.statement.word,
            b'1' => first,
            b'2' => second,
            b'3' => third,
            b'5' => remedy.lines,
            _ => remedy.text,
        };
        let is_short = place == b'5' || known.len() <= MOST_QUOTED;
        let is_quoted = is_short && !known.is_empty();
        (if is_quoted { known } else { b".." }).to_vec(alloc)
    }

    /// A sentence with its places filled.
    pub(crate) fn filled(&self, remedy: Remedy<'_>) -> Result<Vec<u8>, AllocError> {
        let mut text = Vec::new(self.alloc);
        let mut is_place = false;
        for byte in remedy.sentence.as_bytes() {
            if is_place {
                text.extend_from_slice(self.in_place(remedy, *byte)?.as_slice())?;
            } else if *byte != b'@' {
                text.push(*byte)?;
            }
            is_place = !is_place && *byte == b'@';
        }
        Ok(text)
    }

    /// A sentence with its places filled, if there is one.
    pub(crate) fn told(&self, remedy: Option<Remedy<'_>>) -> Told {
        match remedy {
            Some(remedy) => Ok(Some(self.filled(remedy)?)),
            None => Ok(None),
        }
    }

    /// Some lines and then those of a row, one behind the other, if the listing language takes them.
    pub(crate) fn tried(&self, before: &[u8], row: Remedy<'_>) -> Told {
        let mut lines = before.to_vec(self.alloc)?;
        lines.extend_from_slice(self.filled(row)?.as_slice())?;
        if !is_taken(self.alloc, lines.as_slice())? {
            return Ok(None);
        }
        let mut text = Vec::new(self.alloc);
        for byte in lines.as_slice() {
            match *byte {
                b'\n' => text.extend_from_slice(b" and then ")?,
                _ => text.push(*byte)?,
            }
        }
        Ok(Some(text))
    }
}
