//! The operands of a statement, between commas.

ghost use Rattle.std.specs.Prelude.{◌≡◌, ◌∷◌, ◌<◌, ◌-◌, Some, length, IfSome, ℕ, List};
ghost use Rattle.std.specs.Option.{option_map};
ghost use Rattle.lexical.specs.Operand.{operands, operands_left, only, parenthesized, before_close};

use crate::blank::trim;
use crate::cuts::cut;

/// The operand part after a word, if there is one.
#[tactic(auto, unfolding(crate::specs::Operand::operands))]
pub fn operand_part(text: &[u8]) -> Option<&[u8]>
    ensures { operands_left (option_map (λ t. t.now) result) ≡ operands text.now }
{
    let part = trim(text);
    if part.is_empty() { None } else { Some(part) }
}

/// The first operand of an operand part, and the text after its comma, if it has one.
pub fn next_operand(part: &[u8]) -> (&[u8], Option<&[u8]>)
    ensures operands { operands_left (Some part.now)
        ≡ result.0.now ∷ operands_left (option_map (λ r. r.now) result.1) }
    ensures shorter { IfSome result.1 (λ r. length r.now < length part.now) }
{
    let (operand, rest) = cut(part, b',');
    (trim(operand), rest)
}

/// The number of operands of an operand part.
pub fn count_operands(part: Option<&[u8]>) -> usize
    ensures { result ≡ length (operands_left (option_map (λ t. t.now) part.entry)) }
{
    let mut n = 0;
    let mut rest = part;
    while let Some(text) = rest {
        let (_, after) = next_operand(text);
        n += 1;
        rest = after;
    }
    n
}

/// The operand of an operand part that has only one.
pub fn only_operand(part: Option<&[u8]>) -> Option<&[u8]>
    ensures { option_map (λ t. t.now) result
        ≡ only (operands_left (option_map (λ t. t.now) part.entry)) }
{
    let (operand, rest) = next_operand(part?);
    match rest {
        None => Some(operand),
        Some(_) => None,
    }
}

// The text before a `)` at its end.
fn before_close(text: &[u8]) -> Option<&[u8]>
    ensures { option_map (λ t. t.now) result ≡ before_close (Some text.now) }
{
    let n = text.len();
    if n > 0 && text[n - 1] == b')' {
        Some(&text[..n - 1])
    } else {
        None
    }
}

/// The two parts of an operand `a(b)`, without the blanks at their ends.
#[tactic(auto, unfolding(crate::specs::Operand::parenthesized))]
pub fn parenthesized(text: &[u8]) -> Option<(&[u8], &[u8])>
    ensures { option_map (λ p. (p.0.now, p.1.now)) result ≡ parenthesized text.now }
{
    let (front, rest) = cut(text, b'(');
    let inner = before_close(rest?)?;
    Some((trim(front), trim(inner)))
}
