//! The lines of a listing, and the part of a line before its comment.

ghost use Rattle.std.specs.Prelude.{◌≡◌, ◌∷◌, ◌<◌, Some, length, IfSome};
ghost use Rattle.std.specs.Option.{option_map};
ghost use Rattle.std.specs.Str.Lines.{strip_carriage_return};
ghost use Rattle.lexical.specs.Line.{lines_of, lines_left, before_comment, plain_code, IsFirstCode};

use crate::cuts::cut;
use crate::name::{end_of_code, is_plain_text};

// A line without a carriage return at its end.
fn without_return(line: &[u8]) -> &[u8]
    ensures { result.now ≡ strip_carriage_return line.now }
{
    let n = line.len();
    if n > 0 && line[n - 1] == b'\r' {
        &line[..n - 1]
    } else {
        line
    }
}

/// The first line without its end, and the text after its line feed, if it has one.
pub fn next_line(text: &[u8]) -> (&[u8], Option<&[u8]>)
    ensures lines { lines_of text.now
        ≡ result.0.now ∷ lines_left (option_map (λ r. r.now) result.1) }
    ensures shorter { IfSome result.1 (λ r. length r.now < length text.now) }
{
    let (line, rest) = cut(text, b'\n');
    (without_return(line), rest)
}

/// The text before the first `#`, which begins a comment.
pub fn before_comment(line: &[u8]) -> &[u8]
    ensures { result.now ≡ before_comment line.now }
{
    let (code, _) = cut(line, b'#');
    code
}

// The text of a line before its comment, where each byte may stand there.
fn code_of(line: &[u8]) -> Option<&[u8]>
    ensures { option_map (λ t. t.now) result ≡ plain_code line.now }
{
    let code = before_comment(line);
    if is_plain_text(code) {
        Some(code)
    } else {
        None
    }
}

// A first line that has no comment and ends by a line feed alone, and the text after it.
fn bare_code(text: &[u8]) -> Option<(&[u8], Option<&[u8]>)>
    ensures code { IfSome result (λ p. IsFirstCode text.now (Some p.0.now)
        (option_map (λ r. r.now) p.1)) }
    ensures shorter { IfSome result (λ p. IfSome p.1 (λ r. length r.now < length text.now)) }
{
    let Some(end) = end_of_code(text) else {
        return Some((text, None));
    };
    if text[end] != b'\n' {
        return None;
    }
    let (code, rest) = text.split_at(end);
    let (_, after) = rest.split_at(1);
    Some((code, Some(after)))
}

/// The code of the first line, before its comment, and the text after its line feed, if it has one. No
/// code is given for a line with a byte that is neither a tab nor printable ASCII.
pub fn next_code(text: &[u8]) -> (Option<&[u8]>, Option<&[u8]>)
    ensures code { IsFirstCode text.now (option_map (λ t. t.now) result.0)
        (option_map (λ r. r.now) result.1) }
    ensures shorter { IfSome result.1 (λ r. length r.now < length text.now) }
{
    if let Some((code, rest)) = bare_code(text) {
        return (Some(code), rest);
    }
    let (line, rest) = next_line(text);
    (code_of(line), rest)
}
