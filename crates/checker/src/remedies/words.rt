//! Remedies of words that are no operation, and of lines with two statements.

use super::super::parts::Parts;
use super::instead;
use super::sentences::{Case, Remedy, said};
use super::tables::{NO_REALS, WORDS};
use isa::{FaultKind, directive_text, form_of, forms};
use lexical::{cut, cut_word, is_name, trim};
use std::alloc::{AllocError, Global};
use strsim::generic_damerau_levenshtein;

// The most bytes of words that are compared by letters.
const MOST_BYTES: usize = 60;

/// Whether a word is one of these, in letters of either case.
pub(crate) fn has_word(words: &str, word: &[u8]) -> bool {
    words
        .as_bytes()
        .split(|byte| *byte == b' ')
        .any(|one| one.eq_ignore_ascii_case(word))
}

/// Whether two words are one edit apart: a letter replaced, added or left out, or two neighbours in the other order. The case
/// of letters does not count.
pub(crate) fn is_one_away(alloc: Global, one: &[u8], other: &[u8]) -> Result<bool, AllocError> {
    if one.len().abs_diff(other.len()) > 1 || one.len() > MOST_BYTES {
        return Ok(false);
    }
    let (one, other) = (
        one.to_ascii_lowercase(alloc)?,
        other.to_ascii_lowercase(alloc)?,
    );
    Ok(generic_damerau_levenshtein(alloc, one.as_slice(), other.as_slice())? == 1)
}

/// Whether a word is that of an operation or a directive.
pub(crate) fn is_of_language(word: &[u8]) -> bool {
    directive_text(word).is_some() || !matches!(form_of(word, 0), Err(FaultKind::UnknownOp))
}

/// What is said of a word for which no instruction with its operands is written, if anything is. An operation of floating
/// point is one with its kind after a dot, as `add.s`.
pub(crate) fn row_of_word<'a>(word: &[u8]) -> Option<Remedy<'a>> {
    match (WORDS.iter().find(|row| has_word(row.0, word)), word) {
        (Some(row), _) => Some(said(row.1)),
        (None, [b'.', ..]) => None,
        (None, [_, .., b'.', b's' | b'S' | b'd' | b'D' | b'w' | b'W']) => Some(said(NO_REALS)),
        _ => None,
    }
}

// The operation that a word is, but for one letter at its end.
fn begun(word: &[u8]) -> Option<&'static str> {
    let [front @ .., _] = word else {
        return None;
    };
    let form = forms().iter().find(|form| form.has_word(front))?;
    Some(form.word)
}

// The first word of the language that is one edit away, and is not another one.
fn near(alloc: Global, word: &[u8], but: &str) -> Result<Option<&'static str>, AllocError> {
    for form in forms() {
        if form.word != but && is_one_away(alloc, form.word.as_bytes(), word)? {
            return Ok(Some(form.word));
        }
    }
    for directive in [".space", ".word"] {
        if directive != but && is_one_away(alloc, directive.as_bytes(), word)? {
            return Ok(Some(directive));
        }
    }
    Ok(None)
}

// The words that may be meant: the operation with which a word begins, or two that are one edit away.
fn nearest<'a>(alloc: Global, word: &[u8]) -> Result<Option<Remedy<'a>>, AllocError> {
    let first = match begun(word) {
        Some(operation) => return Ok(Some(said("Is @4 meant?").naming(operation.as_bytes()))),
        None => near(alloc, word, "")?,
    };
    let Some(first) = first else {
        return Ok(None);
    };
    let remedy = match near(alloc, word, first)? {
        None => said("Is @4 meant?"),
        Some(other) => said("Is @4 or @5 meant?").writing(other.as_bytes()),
    };
    Ok(Some(remedy.naming(first.as_bytes())))
}

impl<'a> Case<'a> {
    // What is said of a name that is given a number, of a label that is no name, or of a label without its colon.
    fn label(&self) -> Option<Remedy<'a>> {
        let [first, _, _] = self.statement.operands;
        let (front, colon) = cut(self.parts.code, b':');
        let (next, _) = cut_word(first);
        if first.starts_with(b"=") {
            Some(said("Write the number: there are no names for numbers."))
        } else if colon.is_some() && !is_name(trim(front)) {
            Some(said(
                "Write another name: a label begins with a letter, _ or ., and goes on with these and digits.",
            ))
        } else if is_name(self.statement.word) && is_of_language(next) {
            Some(said("Write @0: with a colon, as a label has."))
        } else {
            None
        }
    }

    // What is said of a word of the table of instructions, whose operands do not fit.
    fn other_operands(&self) -> Result<Option<Remedy<'a>>, AllocError> {
        let found = self.odd_operand()?.or(self.bad_register()?);
        if found.is_none() && self.statement.word.eq_ignore_ascii_case(b"li") {
            return Ok(Some(said("Write addiu @1,$zero,n with n from -32768 to 32767.")));
        }
        Ok(found)
    }

    /// What is said of a word that is no operation, and for which no instructions can be written: of its operands, of a
    /// label, or the word that may be meant.
    pub(crate) fn unknown_word(&self) -> Result<Option<Remedy<'a>>, AllocError> {
        let word = self.statement.word;
        if instead::is_known(word) {
            return self.other_operands();
        }
        let found = self.label();
        if found.is_some() {
            return Ok(found);
        }
        let found = nearest(self.alloc, word)?;
        let is_label = is_name(word) && !word.starts_with(b".") && self.statement.count == 0;
        if found.is_none() && is_label {
            return Ok(Some(said("If it is a label, write @0: with a colon.")));
        }
        Ok(found)
    }
}

// The word of a statement that a text is: with operands, or without them where it may stand alone.
fn begins(text: &[u8], may_be_alone: bool) -> Option<&[u8]> {
    let (word, rest) = cut_word(trim(text));
    let is_whole = if trim(rest).is_empty() {
        may_be_alone && is_of_language(word)
    } else {
        is_of_language(word) || instead::is_known(word)
    };
    if is_whole { Some(word) } else { None }
}

/// The word of a second statement of a line, where a `;` or no more than a blank is between the two.
pub(crate) fn second<'a>(parts: &Parts<'a>) -> Option<&'a [u8]> {
    let mut rest = parts.operands;
    while let Some(text) = rest {
        let (operand, after) = cut(text, b',');
        let found = match cut(operand, b';') {
            (_, Some(behind)) => begins(behind, true),
            _ => begins(cut_word(trim(operand)).1, false),
        };
        if found.is_some() {
            return found;
        }
        rest = after;
    }
    None
}
