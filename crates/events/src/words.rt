//! The words of a line.
ghost use Rattle.std.specs.Prelude.{◌≡◌};
ghost use Rattle.std.specs.Option.{option_map};
ghost use Rattle.events.specs.Lines.{code_of, next_word, number, position};

use crate::unread::Unread;
use lexical::{before_comment, cut, cut_word, decimal_in, number_in, trim};

/// A line before its end and its comment; none where there is more than a line.
pub(crate) fn code_of(line: &[u8]) -> Option<&[u8]>
    ensures { option_map (λ t. t.now) result ≡ code_of line.now }
{
    let (line, rest) = cut(line, b'\n');
    match rest {
        Some(rest) if !rest.is_empty() => None,
        _ => {
            let (line, _) = cut(line, b'\r');
            Some(before_comment(line))
        }
    }
}

/// The first word of a text, and the text after it; none where it is blank.
pub(crate) fn next_word(text: &[u8]) -> Option<(&[u8], &[u8])>
    ensures { option_map (λ p. (p.0.now, p.1.now)) result ≡ next_word text.now }
{
    let text = trim(text);
    if text.is_empty() {
        return None;
    }
    Some(cut_word(text))
}

/// A pc or a value, as listings write numbers.
pub(crate) fn number(word: &[u8]) -> Result<u32, Unread>
    ensures { result ≡ number word.now }
{
    number_in(word, 0x8000_0000, 0xffff_ffff).ok_or(Unread::NoNumber)
}

/// A position: a decimal number.
pub(crate) fn position(word: &[u8]) -> Result<usize, Unread>
    ensures { result ≡ position word.now }
{
    match decimal_in(word, 0xffff_ffff) {
        Some(who) => Ok(who as usize),
        None => Err(Unread::NoNumber),
    }
}
