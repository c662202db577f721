//! Instructions to write in place of a statement: of those of the table the first that the listing language takes.

use super::super::forms::takes_label;
use super::operands::{bare_number, is_clear};
use super::sentences::{Case, Told, said};
use super::tables::INSTEAD;
use super::words::{has_word, is_of_language};
use isa::{form_of, register_in};
use lexical::{begins_number, is_name, number_in};
use std::alloc::AllocError;

// Words of other assemblers that are also written without their second operand, where that is the first one.
const SHORT: &str = "mul mulo rem remu subi subiu";

// Shifts, which have no number that would not fit.
const SHIFTS: &str = "sll srl sra sllv srlv srav";

// The operands of an example: how many there are, and the words that write them.
struct Sample {
    count: usize,
    operands: [&'static [u8]; 3],
    text: &'static str,
}

macro_rules! samples {
    ($($count:literal $first:literal $second:literal $third:literal => $text:literal,)*) => {
        [$(Sample { count: $count, operands: [$first, $second, $third], text: $text }),*]
    };
}

static SAMPLES: [Sample; 7] = samples! {
    3 b"$t0" b"$t1" b"loop" => " $t0,$t1,loop",
    3 b"$t0" b"$t1" b"$t2" => " $t0,$t1,$t2",
    2 b"$t0" b"loop" b"" => " $t0,loop",
    2 b"$t0" b"$t1" b"" => " $t0,$t1",
    2 b"$t0" b"4($t1)" b"" => " $t0,4($t1)",
    1 b"loop" b"" b"" => " loop",
    1 b"$t0" b"" b"" => " $t0",
};

/// The value of a number, as 32 bits.
pub(crate) fn value_of(number: &[u8]) -> Option<u32> {
    number_in(number, 0x8000_0000, 0xffff_ffff)
}

/// Whether an operand is $at.
pub(crate) fn is_at(operand: &[u8]) -> bool {
    matches!(register_in(operand), Ok(register) if register.number() == 1)
}

/// Whether a word is one of the table.
pub(crate) fn is_known(word: &[u8]) -> bool {
    INSTEAD.iter().any(|row| has_word(row.words, word))
}

// Whether the word has three operands, of which the second may be left out where it is the first one.
fn is_short(word: &[u8]) -> bool {
    has_word(SHORT, word) || form_of(word, 3).is_ok() && !takes_label(word, 3, 2)
}

impl Case<'_> {
    /// The lines that put a number into a register.
    pub(crate) fn loading(&self, register: &[u8], value: u32) -> Result<Vec<u8>, AllocError> {
        let (high, low) = (i64::from(value >> 16), i64::from(value & 0xffff));
        let signed = i64::from(value.cast_signed());
        let (lines, numbers) = if -32768 <= signed && signed <= 32767 {
            ("addiu @4,$zero,@6", [signed, 0])
        } else if high == 0 {
            ("ori @4,$zero,@6", [low, 0])
        } else if low == 0 {
            ("lui @4,@6", [high, 0])
        } else {
            ("lui @4,@6\nori @4,@4,@7", [high, low])
        };
        self.filled(said(lines).naming(register).counting(numbers))
    }

    /// The lines that put a number into $at, and are before others.
    pub(crate) fn loading_at(&self, value: u32) -> Result<Vec<u8>, AllocError> {
        let mut lines = self.loading(b"$at", value)?;
        lines.push(b'\n')?;
        Ok(lines)
    }

    // The instructions of the table, behind other lines.
    fn in_table(&self, before: &[u8]) -> Told {
        let [first, second, third] = self.statement.operands;
        let count = self.statement.count;
        let (mut negated, mut load) = (Vec::new(self.alloc), Vec::new(self.alloc));
        if let Some(value) = value_of(if count == 3 { third } else { second }) {
            negated = self.filled(said("@6").counting([0 - i64::from(value.cast_signed()), 0]))?;
            load = self.loading(first, value)?;
        }
        for row in &INSTEAD {
            if row.count == count && has_word(row.words, self.statement.word) {
                let lines = said(row.lines)
                    .naming(negated.as_slice())
                    .writing(load.as_slice());
                let found = self.tried(before, lines)?;
                if found.is_some() {
                    return Ok(found);
                }
            }
        }
        Ok(None)
    }

    // The instructions of the table behind a load of a number, in whose place $at stands: no register beside it is that.
    fn behind_load(&self) -> Told {
        let [first, second, third] = self.statement.operands;
        let at: &[u8] = b"$at";
        let (number, beside, [left, right]) = if begins_number(third) {
            (third, second, [second, at])
        } else if is_name(third) {
            (second, first, [at, third])
        } else {
            (second, third, [at, third])
        };
        let is_free = !is_at(beside) && !has_word(SHIFTS, self.statement.word);
        match value_of(number) {
            Some(value) if is_free && self.statement.count == 3 => {
                let loaded = Case::of(self.alloc, self.statement.word, 3, first, left, right);
                loaded.in_table(self.loading_at(value)?.as_slice())
            },
            _ => Ok(None),
        }
    }

    // The instructions for a statement with all its operands. A branch of the language has some for a number alone.
    fn for_whole(&self) -> Told {
        if !takes_label(self.statement.word, 3, 2) {
            let found = self.in_table(b"")?;
            if found.is_some() {
                return Ok(found);
            }
        }
        self.behind_load()
    }

    // The instructions for a statement, also where its second operand is left out.
    fn lines(&self) -> Told {
        let found = self.for_whole()?;
        if found.is_some() || self.statement.count != 2 || !is_short(self.statement.word) {
            return Ok(found);
        }
        let [first, second, _] = self.statement.operands;
        Case::of(self.alloc, self.statement.word, 3, first, first, second).for_whole()
    }

    // The statement without the zeros before its last operand, where nobody can mean an octal number.
    fn without_zeros(&self) -> Told {
        let lines = match self.statement.count {
            1 => "@0 @4",
            2 => "@0 @1,@4",
            3 => "@0 @1,@2,@4",
            _ => return Ok(None),
        };
        match bare_number(&self.statement) {
            Some(number) if is_clear(number) => self.tried(b"", said(lines).naming(number)),
            _ => Ok(None),
        }
    }

    /// The instructions to write in place of a statement.
    pub(crate) fn instead(&self) -> Told {
        if let Some(lines) = self.lines()? {
            return self.told(Some(said("Write @5.").writing(lines.as_slice())));
        }
        let Some(lines) = self.without_zeros()? else {
            return Ok(None);
        };
        self.told(Some(said("Write @5: there are no octal numbers.").writing(lines.as_slice())))
    }

    /// An example of a word of the table that is no operation of the language, where its own operands do not fit.
    pub(crate) fn sample(&self) -> Told {
        let word = self.statement.word;
        if is_of_language(word) {
            return Ok(None);
        }
        for sample in &SAMPLES {
            let [first, second, third] = sample.operands;
            let case = Case::of(self.alloc, word, sample.count, first, second, third);
            if let Some(lines) = case.for_whole()? {
                let remedy = said("For example write @5 for @0@4.").naming(sample.text.as_bytes());
                let sentence = self.filled(remedy.writing(lines.as_slice()))?;
                return Ok(Some(sentence));
            }
        }
        Ok(None)
    }
}
