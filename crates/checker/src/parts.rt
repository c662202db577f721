//! The anatomy of a line, as the parser cuts it: its code, its statement, and the word and the operands of that.
ghost use Rattle.std.specs.Prelude.{◌≡◌};
ghost use Rattle.std.specs.Option.{option_map};
ghost use Rattle.lexical.specs.Label.{statement_of};
ghost use Rattle.lexical.specs.Line.{before_comment};
ghost use Rattle.lexical.specs.Operand.{operands_left};
ghost use Rattle.checker.specs.Parts.{IsPartOf, operands_of_line, word_in};

use lexical::{
    before_comment, count_operands, cut_word, is_blank, next_label, next_operand, operand_part,
    trim,
};

/// A part of a line: from the byte `from` up to the byte `to`, which is behind it.
#[derive(Clone, Copy)]
pub(crate) struct Part {
    pub from: usize,
    pub to: usize,
}

/// The parts of a line: its code, which is all before its comment, its statement, and the word and the operands of that.
/// The statement ends before the byte `end` of the line.
#[derive(Clone, Copy)]
pub(crate) struct Parts<'a> {
    pub line: &'a [u8],
    pub code: &'a [u8],
    pub statement: &'a [u8],
    pub word: &'a [u8],
    pub operands: Option<&'a [u8]>,
    pub end: usize,
}

/// A word, the number of its operands, and the first three of these, each empty where it is missing.
#[derive(Clone, Copy)]
pub(crate) struct Statement<'a> {
    pub word: &'a [u8],
    pub count: usize,
    pub operands: [&'a [u8]; 3],
}

/// The parts of a line.
pub(crate) fn parts_of(line: &[u8]) -> Parts<'_>
    ensures line { result.line.now ≡ line.now }
    ensures code { result.code.now ≡ before_comment line.now }
    ensures statement { result.statement.now ≡ statement_of (before_comment line.now) }
    ensures word { result.word.now ≡ word_in line.now }
    ensures operands { operands_left (option_map (λ t. t.now) result.operands)
        ≡ operands_of_line line.now }
{
    let code = before_comment(line);
    let mut rest = code;
    while let Some((_, behind)) = next_label(rest) {
        rest = behind;
    }
    let statement = trim(rest);
    let (word, behind) = cut_word(statement);
    let operands = operand_part(behind);
    let end = place(code.len(), rest, statement).to;
    Parts {
        line,
        code,
        statement,
        word,
        operands,
        end,
    }
}

/// The place of a text that is the first in another one but for blanks, where that one ends before the byte `end`.
pub(crate) fn place(end: usize, rest: &[u8], text: &[u8]) -> Part {
    let blanks = rest.iter().take_while(|byte| is_blank(**byte)).count();
    let from = end.saturating_sub(rest.len()).saturating_add(blanks);
    let to = from.saturating_add(text.len());
    Part { from, to }
}

/// A part as far as a line has it.
pub(crate) fn within(line: &[u8], part: Part) -> Part
    ensures { IsPartOf line.now result }
{
    let to = part.to.min(line.len());
    let from = part.from.min(to);
    Part { from, to }
}

// The first operand, and the others.
fn operand(operands: Option<&[u8]>) -> (&[u8], Option<&[u8]>) {
    match operands {
        Some(operands) => next_operand(operands),
        None => (b"", None),
    }
}

impl<'a> Parts<'a> {
    /// The word of the statement and its operands.
    pub(crate) fn statement(&self) -> Statement<'a> {
        let (first, behind) = operand(self.operands);
        let (second, behind) = operand(behind);
        let (third, _) = operand(behind);
        Statement {
            word: self.word,
            count: count_operands(self.operands),
            operands: [first, second, third],
        }
    }
}

impl<'a> Statement<'a> {
    /// The last operand of at most three.
    pub(crate) fn last(&self) -> &'a [u8] {
        let [first, second, third] = self.operands;
        match self.count {
            1 => first,
            2 => second,
            _ => third,
        }
    }
}
