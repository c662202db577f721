//! Warnings of labels: those that no instruction names, and those that stand before data.
ghost use Rattle.std.specs.Prelude.{◌≡◌, ◌∷◌, OnOk, true};
ghost use Rattle.std.specs.Option.{option_map};
ghost use Rattle.lexical.specs.Line.{lines_of, lines_left};
ghost use Rattle.isa.specs.Listing.{labels, stands_in};
ghost use Rattle.checker.specs.Parts.{IsPartOf, part_text};
ghost use Rattle.checker.specs.Warnings.{AreOperandsOf, AreWarnedOf, IsSpotOf, begin_with_data, stands_at_data};

use super::super::names::{Names, has_name};
use super::super::parts::{Part, parts_of, place, within};
use super::super::remedies::warned;
use super::super::spot::Spot;
use super::{Good, Warning, push_warning};
use isa::directive_text;
use lexical::{before_comment, next_label, next_line};
use std::alloc::{AllocError, Global};

/// What is next in a listing: the number of an instruction, a byte of data, and whether it is data that stands first.
#[derive(Clone, Copy)]
pub(crate) struct Next {
    pub k: usize,
    pub byte: u32,
    pub is_data: bool,
}

/// Whether the first statement of a text is data.
pub(crate) fn begin_with_data(text: Option<&[u8]>) -> bool
    ensures { result ≡ begin_with_data (lines_left (option_map (λ t. t.now) text.entry)) }
{
    let mut rest = text;
    while let Some(text) = rest {
        let (line, after) = next_line(text);
        let word = parts_of(line).word;
        if !word.is_empty() {
            return directive_text(word).is_some();
        }
        rest = after;
    }
    false
}

/// Whether data stands first after a line, by whether it does from that line on.
pub(crate) fn is_data_after(line: &[u8], after: Option<&[u8]>, is_data: bool) -> bool
    ensures { is_data ≡ begin_with_data (line.now ∷ lines_left (option_map (λ t. t.now) after.entry))
        → result ≡ begin_with_data (lines_left (option_map (λ t. t.now) after.entry)) }
{
    if parts_of(line).word.is_empty() {
        is_data
    } else {
        begin_with_data(after)
    }
}

// Warns of a label, if it stands before data, or if no instruction names it. Labels before the first instruction may name
// the beginning for a reader.
fn push_label(
    alloc: Global,
    text: &mut Vec<u8>,
    good: &Good<'_>,
    operands: &Names<'_>,
    spot: Spot<'_>,
    next: Next,
    part: Part,
) -> Result<(), AllocError>
    requires spot { IsSpotOf good.now spot }
    requires operands { AreOperandsOf (lines_of good.now.bytes.now) operands.now }
    requires data { next.is_data ≡ true
        → stands_at_data spot.number (lines_of good.now.bytes.now) ≡ true }
    requires part { IsPartOf spot.line.now part }
    requires label { stands_in (labels spot.line.now) (part_text spot.line.now part) ≡ true }
    ensures { OnOk result (AreWarnedOf good.now text.old.items text.new.items) }
{
    if next.is_data {
        let help = warned::at_data(alloc, next.byte, good.lines.get(next.k).copied())?;
        push_warning(
            alloc,
            text,
            good,
            spot,
            part,
            Warning::AtData,
            help.as_slice(),
        )?;
    } else if next.k > 0 && !has_name(operands, &spot.line[part.from..part.to]) {
        push_warning(alloc, text, good, spot, part, Warning::NeverUsed, b"")?;
    }
    Ok(())
}

/// Warns of the labels of a line that stand before data, or that no instruction names. The mark of a label is under its name.
pub(crate) fn push_labels(
    alloc: Global,
    text: &mut Vec<u8>,
    good: &Good<'_>,
    operands: &Names<'_>,
    spot: Spot<'_>,
    next: Next,
) -> Result<(), AllocError>
    requires spot { IsSpotOf good.now spot }
    requires operands { AreOperandsOf (lines_of good.now.bytes.now) operands.now }
    requires data { next.is_data ≡ true
        → stands_at_data spot.number (lines_of good.now.bytes.now) ≡ true }
    ensures { OnOk result (AreWarnedOf good.now text.old.items text.new.items) }
{
    let line = spot.line;
    let code = before_comment(line);
    let mut rest = code;
    while let Some((name, behind)) = next_label(rest) {
        let part = within(line, place(code.len(), rest, name));
        if &line[part.from..part.to] == name {
            push_label(alloc, text, good, operands, spot, next, part)?;
        }
        rest = behind;
    }
    Ok(())
}
