//! The labels at the front of a line.

ghost use Rattle.std.specs.Prelude.{◌≡◌, ◌∷◌, ◌<◌, [], length, IfSome, IfNone};
ghost use Rattle.lexical.specs.Blank.{trim};
ghost use Rattle.lexical.specs.Label.{labels_of, statement_of};

use crate::blank::trim;
use crate::cuts::cut;
use crate::name::{end_of_name, is_name};

// The label at the very front of a line without a blank, and the text after its colon.
fn label_without_blanks(code: &[u8]) -> Option<(&[u8], &[u8])>
    ensures label { IfSome result (λ p. labels_of code.now ≡ p.0.now ∷ labels_of p.1.now) }
    ensures statement { IfSome result (λ p. statement_of code.now ≡ statement_of p.1.now) }
    ensures shorter { IfSome result (λ p. length p.1.now < length code.now) }
{
    let end = end_of_name(code)?;
    if end == 0 || code[end] != b':' || code[0].is_ascii_digit() {
        return None;
    }
    let (front, rest) = code.split_at(end);
    let (_, after) = rest.split_at(1);
    Some((front, after))
}

// The label at the front of a line, also with blanks round it, and the text after its colon.
fn label_with_blanks(code: &[u8]) -> Option<(&[u8], &[u8])>
    ensures label { IfSome result (λ p. labels_of code.now ≡ p.0.now ∷ labels_of p.1.now) }
    ensures statement { IfSome result (λ p. statement_of code.now ≡ statement_of p.1.now) }
    ensures shorter { IfSome result (λ p. length p.1.now < length code.now) }
    ensures no_label { IfNone result (labels_of code.now ≡ []) }
    ensures all_statement { IfNone result (statement_of code.now ≡ trim code.now) }
{
    let (front, rest) = cut(code, b':');
    let after = rest?;
    let name = trim(front);
    if is_name(name) {
        Some((name, after))
    } else {
        None
    }
}

/// The label at the front of a line, and the text after its colon. Where no label stands there,
/// the whole text is the statement.
pub fn next_label(code: &[u8]) -> Option<(&[u8], &[u8])>
    ensures label { IfSome result (λ p. labels_of code.now ≡ p.0.now ∷ labels_of p.1.now) }
    ensures statement { IfSome result (λ p. statement_of code.now ≡ statement_of p.1.now) }
    ensures shorter { IfSome result (λ p. length p.1.now < length code.now) }
    ensures no_label { IfNone result (labels_of code.now ≡ []) }
    ensures all_statement { IfNone result (statement_of code.now ≡ trim code.now) }
{
    match label_without_blanks(code) {
        Some(found) => Some(found),
        None => label_with_blanks(code),
    }
}
