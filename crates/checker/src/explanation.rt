//! The diagnostics of faults.
ghost use Rattle.std.specs.Prelude.{◌≡◌, ◌++◌, IfOk, OnOk, Some};
ghost use Rattle.std.specs.Option.{option_map};
ghost use Rattle.lexical.specs.Line.{lines_of};
ghost use Rattle.checker.specs.Diagnostics.{AreExplained, IsExplained, IsExplanationBehind};
ghost use Rattle.checker.specs.Diagnostics.{sentence, whole};
ghost use Rattle.checker.specs.Parts.{numbered_line};

use super::faults::chosen_faults;
use super::forms::forms_text;
use super::parts::parts_of;
use super::remedies::remedy;
use super::spot::{Spot, push_advice};
use isa::{FaultKind, Marked, fault_text};
use lexical::next_line;
use std::alloc::{AllocError, Global};

// The beginning of a diagnostic of a fault.
const ERROR: &str = "error: ";

// A line by its number, counted from 1.
fn numbered_line(text: &[u8], number: u64) -> Option<&[u8]>
    ensures { option_map (λ t. t.now) result ≡ numbered_line number (lines_of text.now) }
{
    if number == 0 {
        return None;
    }
    let mut left = number - 1;
    let mut rest = Some(text);
    while let Some(text) = rest {
        let (line, after) = next_line(text);
        if left == 0 {
            return Some(line);
        }
        left -= 1;
        rest = after;
    }
    None
}

// A listing: the name of its file as it is shown, and its bytes.
#[derive(Clone, Copy)]
struct Source<'a> {
    file: &'a [u8],
    bytes: &'a [u8],
}

// The rules of the language, one for each kind of fault.
const NOT_ASCII: &str = "Before a comment a line has only tabs and printable ASCII characters.";

const UNKNOWN_OP: &str = "A statement begins with an operation, or with .space or .word.";

const BAD_REGISTER: &str =
    "A register is $0 to $31 without leading zeros, or $ and one of the names, as $t0.";

const BAD_NUMBER: &str =
    "A number is decimal without leading zeros, or 0x and hexadecimal digits, and in its range.";

const BAD_OPERANDS: &str =
    "Operands stand between commas, as many and of the kinds that the form has.";

const UNKNOWN_LABEL: &str =
    "A branch or a jump goes to a label of the listing: a name, with a colon where it stands.";

const DOUBLE_LABEL: &str = "A label stands once in a listing.";

const TOO_LONG: &str =
    "A listing has at most 4194304 bytes, 16384 instructions and 65536 bytes of data.";

const MEMORY: &str = "There is no memory left.";

// The rule of the language that a fault breaks.
fn sentence(kind: FaultKind) -> &'static str
    ensures { result.now ≡ sentence kind }
{
    match kind {
        FaultKind::NotAscii => NOT_ASCII,
        FaultKind::UnknownOp => UNKNOWN_OP,
        FaultKind::BadRegister => BAD_REGISTER,
        FaultKind::BadNumber => BAD_NUMBER,
        FaultKind::BadOperands => BAD_OPERANDS,
        FaultKind::UnknownLabel => UNKNOWN_LABEL,
        FaultKind::DoubleLabel => DOUBLE_LABEL,
        FaultKind::TooLong => TOO_LONG,
        FaultKind::Memory => MEMORY,
    }
}

// The forms of the operation of a statement, where they are shown with its fault.
fn note(alloc: Global, kind: FaultKind, word: &[u8]) -> Result<String, AllocError> {
    match kind {
        FaultKind::BadRegister | FaultKind::BadNumber | FaultKind::BadOperands => {
            forms_text(alloc, word)
        },
        _ => Ok(String::new(alloc)),
    }
}

// Adds the diagnostic of a fault in a line of the listing.
fn push_line(
    alloc: Global,
    text: &mut Vec<u8>,
    source: Source<'_>,
    found: Marked,
    line: &[u8],
) -> Result<(), AllocError>
    ensures { OnOk result (IsExplanationBehind source.entry.file.now found (Some line.now)
        text.old.items text.new.items) }
{
    let fault = found.fault;
    let spot = Spot {
        file: source.file,
        number: fault.line,
        line,
    };
    let parts = parts_of(line);
    let part = parts.marked(found.at);
    let remedy = remedy(alloc, source.bytes, line, found)?;
    let rule = sentence(fault.kind);
    push_advice(alloc, text, spot, part, ERROR, remedy.as_slice(), rule)?;
    let note = note(alloc, fault.kind, parts.word)?;
    text.extend_from_slice(note.as_bytes())?;
    Ok(())
}

// Adds the diagnostic of a fault of the listing as a whole.
fn push_whole(text: &mut Vec<u8>, file: &[u8], kind: FaultKind) -> Result<(), AllocError>
    ensures { OnOk result (text.new.items ≡ text.old.items ++ whole file.now kind) }
{
    text.extend_from_slice(file)?;
    text.extend_from_slice(b": ")?;
    text.extend_from_slice(ERROR.as_bytes())?;
    text.extend_from_slice(sentence(kind).as_bytes())?;
    text.extend_from_slice(b"\n")
}

// Adds the diagnostic of a fault.
fn push_explanation(
    alloc: Global,
    text: &mut Vec<u8>,
    source: Source<'_>,
    found: Marked,
) -> Result<(), AllocError>
    ensures { OnOk result (IsExplanationBehind source.entry.file.now found
        (numbered_line found.fault.line (lines_of source.entry.bytes.now))
        text.old.items text.new.items) }
{
    match numbered_line(source.bytes, found.fault.line) {
        Some(line) => push_line(alloc, text, source, found, line),
        None => push_whole(text, source.file, found.fault.kind),
    }
}

// Adds the diagnostics of faults in their order.
fn push_all(
    alloc: Global,
    text: &mut Vec<u8>,
    source: Source<'_>,
    faults: &[Marked],
) -> Result<(), AllocError>
    ensures { OnOk result (AreExplained source.entry.file.now source.entry.bytes.now faults.now
        text.old.items text.new.items) }
{
    for fault in faults {
        push_explanation(alloc, text, source, *fault)?;
    }
    Ok(())
}

/// The line that a report has for a fault, and behind it the diagnostics: of this fault, or of the first one of each
/// line where all are wanted.
pub(crate) fn explained<'a>(
    alloc: Global,
    file: &'a [u8],
    bytes: &'a [u8],
    all: bool,
    first: Marked,
) -> Result<Vec<u8>, AllocError>
    ensures { IfOk result (λ text. IsExplained file.entry.now all bytes.entry.now first
        text.items) }
{
    let head = fault_text(alloc, &first.fault)?;
    let source = Source { file, bytes };
    let faults = chosen_faults(alloc, bytes, all, first)?;
    let mut text = head.into_bytes();
    push_all(alloc, &mut text, source, faults.as_slice())?;
    Ok(text)
}
