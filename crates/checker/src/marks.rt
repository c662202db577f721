//! The part of a line that is marked.
ghost use Rattle.checker.specs.Parts.{IsPartOf};

use super::parts::{Part, Parts, place, within};
use isa::Spot;
use lexical::{cut, cut_word, is_plain, next_label, next_operand, trim};

// The most bytes that go on a character in UTF-8.
const MOST_BYTES: usize = 3;

// The first character that is not allowed before a comment.
fn odd_character(code: &[u8]) -> Option<Part> {
    let from = code.iter().position(|byte| !is_plain(*byte))?;
    let bytes = code.iter().skip(from).skip(1).take(MOST_BYTES);
    let more = bytes
        .take_while(|byte| matches!(**byte, 0x80..=0xbf))
        .count();
    let to = from.saturating_add(1).saturating_add(more);
    Some(Part { from, to })
}

/// The place of `;`, `//` or `/*` in a text, with which a comment of another language begins.
pub(crate) fn other_comment(text: &[u8]) -> Option<usize> {
    for at in 0..text.len() {
        let rest = &text[at..];
        if rest.starts_with(b";") || rest.starts_with(b"//") || rest.starts_with(b"/*") {
            return Some(at);
        }
    }
    None
}

// The second of two words in an operand, between which a comma is missing.
fn second_word(operand: &[u8]) -> Option<&[u8]> {
    let (_, behind) = cut_word(operand);
    let second = trim(behind);
    let (front, address) = cut(operand, b'(');
    let is_in_address = address.is_some()
        && front.len().saturating_add(second.len()) <= operand.len();
    if second.is_empty() || is_in_address {
        return None;
    }
    Some(second)
}

// The operands from operand n on, or the last one where there are fewer.
fn operands_from(operands: &[u8], n: usize) -> &[u8] {
    let mut left = n;
    let mut rest = operands;
    while let (_, Some(behind)) = next_operand(rest) {
        if left == 0 {
            return rest;
        }
        left -= 1;
        rest = behind;
    }
    rest
}

impl Parts<'_> {
    // Label n of a line; its statement where it has fewer.
    fn label(&self, n: usize) -> Part {
        let mut left = n;
        let mut rest = self.code;
        while let Some((name, behind)) = next_label(rest) {
            if left == 0 {
                return place(self.code.len(), rest, name);
            }
            left -= 1;
            rest = behind;
        }
        self.all()
    }

    // The statement.
    fn all(&self) -> Part {
        place(self.end, self.statement, self.statement)
    }

    // Operand n, or the last one, or its offset before a register, or that register.
    fn operand(&self, n: usize, at: Spot) -> Part {
        let rest = operands_from(self.operands.unwrap_or(b""), n);
        let (operand, _) = next_operand(rest);
        match (at, cut(operand, b'('), cut(rest, b'(')) {
            (Spot::Offset(_), (offset, Some(_)), _) => place(self.end, rest, trim(offset)),
            (Spot::Register(_), (_, Some([register @ .., _])), (_, Some(rest))) => {
                place(self.end, rest, trim(register))
            },
            (Spot::Surplus(_), _, _) => place(self.end, rest, trim(rest)),
            _ => place(self.end, rest, operand),
        }
    }

    // The second of two operands between which a comma is missing, if there are two.
    fn without_comma(&self) -> Option<Part> {
        let mut rest = self.operands;
        while let Some(operands) = rest {
            let (operand, behind) = next_operand(operands);
            if let Some(second) = second_word(operand) {
                let to = place(self.end, operands, operand).to;
                let from = to.saturating_sub(second.len());
                return Some(Part { from, to });
            }
            rest = behind;
        }
        None
    }

    // The part that a spot is.
    fn part_at(&self, at: Spot) -> Part {
        match at {
            Spot::Word => place(self.end, self.statement, self.word),
            Spot::Operand(n) | Spot::Offset(n) | Spot::Register(n) => self.operand(n, at),
            Spot::Missing => self.without_comma().unwrap_or(place(self.end, b"", b"")),
            Spot::Surplus(n) => self.without_comma().unwrap_or(self.operand(n, at)),
            Spot::Target => self.operand(usize::MAX, at),
            Spot::Label(n) => self.label(n),
            Spot::Whole => odd_character(self.code).unwrap_or(self.all()),
        }
    }

    /// What is marked of a line: the part that a spot is, or the comment of another language in that; where the number of
    /// operands is at fault, the second of two between which a comma is missing, and where it is none of them, the first
    /// character that is not allowed.
    pub(crate) fn marked(&self, at: Spot) -> Part
        ensures { IsPartOf self.now.line.now result }
    {
        let part = within(self.line, self.part_at(at));
        match other_comment(&self.line[part.from..part.to]) {
            Some(n) if !matches!(at, Spot::Label(_)) => {
                let from = part.from.saturating_add(n);
                within(self.line, Part { from, to: self.end })
            },
            _ => part,
        }
    }
}
