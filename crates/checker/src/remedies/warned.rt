//! What helps where a listing without a fault is warned of.

use super::super::parts::parts_of;
use super::data::size_of;
use super::sentences::{Case, said};
use lexical::next_line;
use std::alloc::{AllocError, Global};

// The most bytes of data memory.
const MOST_BYTES: u32 = 65_536;

// The bytes of the stack that stands as an example.
const STACK: u32 = 400;

/// How many bytes of data a line of a listing without a fault has.
pub(crate) fn data_size(line: &[u8]) -> u32 {
    size_of(&parts_of(line).statement()).unwrap_or(0)
}

/// What to write in place of a label at data, by the number of its byte, and by the line of the next instruction, if
/// there is one.
pub(crate) fn at_data(alloc: Global, byte: u32, line: Option<u64>) -> Result<Vec<u8>, AllocError> {
    let sentence = match (line.is_some(), byte <= 32_767) {
        (true, true) => {
            "Write @6, its byte, for this data, as in lw $t0,@6($zero): the label means line @7."
        },
        (true, false) => {
            "Write @6, its byte, for this data, as in ori $t0,$zero,@6: the label means line @7."
        },
        (false, true) => "Write @6, its byte, for this data, as in lw $t0,@6($zero).",
        (false, false) => "Write @6, its byte, for this data, as in ori $t0,$zero,@6.",
    };
    let numbers = [i64::from(byte), line.unwrap_or(0).cast_signed()];
    Case::new(alloc, b"", b"").filled(said(sentence).counting(numbers))
}

// Whether the last data of a listing is `.space`.
fn ends_in_space(bytes: &[u8]) -> bool {
    let mut is_space = false;
    let mut rest = Some(bytes);
    while let Some(text) = rest {
        let (line, after) = next_line(text);
        if data_size(line) > 0 {
            is_space = parts_of(line).word.eq_ignore_ascii_case(b".space");
        }
        rest = after;
    }
    is_space
}

/// What to write where `$sp` is not set, by the bytes of data: the instruction that sets it.
pub(crate) fn stack(alloc: Global, bytes: &[u8], size: u32) -> Result<Vec<u8>, AllocError> {
    let (top, sentence) = if ends_in_space(bytes) {
        (
            size,
            "If the last .space is the stack, write @5 as the first instruction.",
        )
    } else {
        let sentence =
            "Write .space 400 after all data, for example, and @5 as the first instruction.";
        (size.wrapping_add(STACK), sentence)
    };
    if top > MOST_BYTES {
        return Ok(Vec::new(alloc));
    }
    let case = Case::new(alloc, bytes, b"");
    let lines = case.loading(b"$sp", top)?;
    case.filled(said(sentence).writing(lines.as_slice()))
}
