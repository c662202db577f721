//! Data, and the labels that stand at it.

use super::super::parts::{Statement, parts_of};
use super::words::has_word;
use lexical::{next_label, next_line, number_in};

// Directives of other assemblers that stand for no data.
const EMPTY: &str = ".data .text .globl .global .align";

/// How many bytes of data a statement has, if that is known; an instruction has none.
pub(crate) fn size_of(statement: &Statement<'_>) -> Option<u32> {
    let [first, _, _] = statement.operands;
    if statement.word.eq_ignore_ascii_case(b".word") {
        return u32::try_from(statement.count.saturating_mul(4)).ok();
    }
    if statement.word.eq_ignore_ascii_case(b".space") {
        return number_in(first, 0, 0x1_0000);
    }
    if statement.word.starts_with(b".") && !has_word(EMPTY, statement.word) {
        return None;
    }
    Some(0)
}

// Whether some code has a label.
fn has_label(code: &[u8], name: &[u8]) -> bool {
    let mut rest = code;
    while let Some((label, behind)) = next_label(rest) {
        if label == name {
            return true;
        }
        rest = behind;
    }
    false
}

/// The byte at which a label stands, where the first statement after it is data.
pub(crate) fn byte_of(bytes: &[u8], name: &[u8]) -> Option<u32> {
    let mut at = 0u32;
    let mut is_found = false;
    let mut rest = Some(bytes);
    while let Some(text) = rest {
        let (line, after) = next_line(text);
        let parts = parts_of(line);
        is_found = is_found || has_label(parts.code, name);
        let size = size_of(&parts.statement())?;
        if is_found && size > 0 {
            return Some(at);
        }
        if is_found && !parts.word.is_empty() && !has_word(EMPTY, parts.word) {
            return None;
        }
        at = at.wrapping_add(size);
        rest = after;
    }
    None
}
