//! A line of a listing, and a mark below a part of it.

use super::parts::Part;
use lexical::is_plain;
use std::alloc::{AllocError, Global};

/// How many bytes of a line are shown at most.
const MOST_SHOWN: usize = 200;

// The bytes of a line that are shown, where the marked part begins at this byte.
fn excerpt(line: &[u8], at: usize) -> Part {
    let last = line.len().saturating_sub(MOST_SHOWN);
    let from = at.saturating_sub(MOST_SHOWN / 2).min(last);
    let to = line.len().min(from.saturating_add(MOST_SHOWN));
    Part { from, to }
}

// Three characters where something is left out.
fn three(is_left_out: bool, characters: &'static [u8]) -> &'static [u8] {
    if is_left_out { characters } else { b"" }
}

// What is below a byte: a mark, or a blank, or a tab below a tab; four where the byte is shown by an escape.
fn below(byte: u8, is_marked: bool) -> &'static [u8] {
    match (is_plain(byte), is_marked) {
        (true, true) => b"^",
        (false, true) => b"^^^^",
        (true, false) if byte == b'\t' => b"\t",
        (true, false) => b" ",
        (false, false) => b"    ",
    }
}

/// A line, and below it a mark under the part; a part without bytes is the place of something that is missing.
pub(crate) fn quote(alloc: Global, line: &[u8], part: Part) -> Result<Vec<u8>, AllocError> {
    let kept = excerpt(line, part.from);
    let excerpt = line.get(kept.from..kept.to).unwrap_or(b"");
    let (before, behind) = (0 < kept.from, kept.to < line.len());
    let mut text = three(before, b"...").to_vec(alloc)?;
    text.extend_from_slice(excerpt)?;
    text.extend_from_slice(three(behind, b"..."))?;
    text.push(b'\n')?;
    text.extend_from_slice(three(before, b"   "))?;
    for (at, byte) in line
        .iter()
        .enumerate()
        .take(part.to.min(kept.to))
        .skip(kept.from)
    {
        text.extend_from_slice(below(*byte, part.from <= at))?;
    }
    let mark = if part.from == part.to { "^\n" } else { "\n" };
    text.extend_from_slice(mark.as_bytes())?;
    Ok(text)
}
