//! The part of a line that is at fault.
ghost use Rattle.std.specs.Prelude.{◌≡◌, map};
ghost use Rattle.std.specs.Option.{option_map};
ghost use Rattle.std.specs.List.{find};
ghost use Rattle.lexical.specs.Operand.{operands_left};
ghost use Rattle.isa.specs.Forms.{form_view, has_word};
ghost use Rattle.isa.specs.Spots.{count_spot, data_spot, is_refused, most_operands, operand_spot, operands_spot, space_spot, spot_with};

use super::fault::FaultKind;
use super::form::{Form, form_of, forms, same_word};
use super::instruction::{Draft, fill};
use super::operand::{number, offset};
use super::slot::Slot;
use lexical::{count_operands, next_operand, parenthesized};

/// A part of a line. Its labels and its operands are counted from 0.
#[derive(Clone, Copy)]
pub enum Spot {
    /// A label.
    Label(usize),
    /// The word of the statement.
    Word,
    /// An operand.
    Operand(usize),
    /// The offset before the register of an operand.
    Offset(usize),
    /// The register behind the offset of an operand.
    Register(usize),
    /// The place after the operands, of which there are too few.
    Missing,
    /// The operands from this one on, which are too many.
    Surplus(usize),
    /// The label to which a branch or a jump goes.
    Target,
    /// The line as a whole.
    Whole,
}

// Whether an operand is none of its kind.
fn is_refused(slot: Slot, text: &[u8]) -> bool
    ensures { result ≡ is_refused slot text.now }
{
    let mut draft = Draft::new();
    fill(&mut draft, slot, text).is_err()
}

// The part of operand n that is none of its kind.
fn spot_in_operand(slot: Slot, text: &[u8], n: usize) -> Spot
    ensures { result ≡ operand_spot n slot text.now }
{
    if !matches!(slot, Slot::Offset) {
        return Spot::Operand(n);
    }
    match parenthesized(text) {
        None => Spot::Operand(n),
        Some((front, _)) if offset(front).is_err() => Spot::Offset(n),
        Some(_) => Spot::Register(n),
    }
}

// The part of the first operand that is none of its kind.
fn spot_in_operands(slots: &[Slot], part: Option<&[u8]>) -> Spot
    ensures { result ≡ operands_spot 0 slots.now
        (operands_left (option_map (λ t. t.now) part.entry)) }
{
    let mut rest = part;
    for n in 0..slots.len() {
        let Some(text) = rest else {
            return Spot::Whole;
        };
        let (operand, after) = next_operand(text);
        if is_refused(slots[n], operand) {
            return spot_in_operand(slots[n], operand, n);
        }
        rest = after;
    }
    Spot::Whole
}

// The first form of a table that has a word.
fn form_with_word(table: &[Form], word: &[u8]) -> Option<Form>
    ensures { option_map form_view result ≡ find (has_word word.now) (map form_view table.now) }
{
    for form in table {
        if form.has_word(word) {
            return Some(*form);
        }
    }
    None
}

// The number of operands of the first form of a word.
fn most_operands(word: &[u8]) -> usize
    ensures { result ≡ most_operands word.now }
{
    match form_with_word(forms(), word) {
        Some(form) => form.operands.slots().len(),
        None => 0,
    }
}

// The place at which n operands are too few, or too many.
fn spot_of_count(most: usize, n: usize) -> Spot
    ensures { result ≡ count_spot most n }
{
    if n < most {
        Spot::Missing
    } else {
        Spot::Surplus(most)
    }
}

// What is at fault in the operands of `.space`.
fn spot_in_space(count: usize) -> Spot
    ensures { result ≡ space_spot count }
{
    if count == 1 {
        Spot::Operand(0)
    } else {
        spot_of_count(1, count)
    }
}

// The first operand of `.word` that is no number in its range.
fn spot_in_data(part: Option<&[u8]>) -> Spot
    ensures { result ≡ data_spot 0 (operands_left (option_map (λ t. t.now) part.entry)) }
{
    let mut rest = part;
    let mut n = 0;
    while let Some(text) = rest {
        let (operand, after) = next_operand(text);
        if number(operand, 0x8000_0000, 0xffff_ffff).is_err() {
            return Spot::Operand(n);
        }
        rest = after;
        n += 1;
    }
    Spot::Missing
}

/// The part of a statement that is at fault, by its word and its operands.
pub fn spot_with(word: &[u8], part: Option<&[u8]>) -> Spot
    ensures { result ≡ spot_with word.now (operands_left (option_map (λ t. t.now) part.entry)) }
{
    let count = count_operands(part);
    if same_word(b".space", word) {
        return spot_in_space(count);
    }
    if same_word(b".word", word) {
        return spot_in_data(part);
    }
    match form_of(word, count) {
        Ok(form) => spot_in_operands(form.operands.slots(), part),
        Err(kind) if kind == FaultKind::UnknownOp => Spot::Word,
        Err(_) => spot_of_count(most_operands(word), count),
    }
}
