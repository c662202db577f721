//! The words of a line.
ghost use Rattle.std.specs.Prelude.{◌≡◌};
ghost use Rattle.session.specs.Tokens.{behind_word, first_word, has_count, texts_of, words_behind, tokens_of};

use lexical::{before_comment, cut_word, decimal_in, trim};

/// The words of a line up to a `#`, between blanks. One that is not there is empty.
#[derive(Clone, Copy)]
pub struct Tokens<'a> {
    /// How often the command is asked for, where a number stands before it.
    pub count: &'a [u8],
    pub verb: &'a [u8],
    pub first: &'a [u8],
    pub second: &'a [u8],
    /// The text behind the third word.
    pub rest: &'a [u8],
}

// The first word of a text, and what stands behind it without the blanks at its ends.
fn next_word(text: &[u8]) -> (&[u8], &[u8])
    ensures word { result.0.now ≡ first_word text.now }
    ensures rest { result.1.now ≡ behind_word text.now }
{
    let (word, behind) = cut_word(text);
    (word, trim(behind))
}

// A number stands first in the text, and something behind it.
fn has_count(text: &[u8]) -> bool
    ensures { result ≡ has_count text.now }
{
    let (first, behind) = next_word(text);
    !behind.is_empty() && decimal_in(first, 0xffff_ffff).is_some()
}

// The words of a text behind a count.
fn words_behind<'a>(count: &'a [u8], text: &'a [u8]) -> Tokens<'a>
    ensures { texts_of result ≡ words_behind count.now text.now }
{
    let (verb, operands) = next_word(text);
    let (first, others) = next_word(operands);
    let (second, rest) = next_word(others);
    Tokens {
        count,
        verb,
        first,
        second,
        rest,
    }
}

/// The words of a line.
pub fn tokens_in(line: &[u8]) -> Tokens<'_>
    ensures { texts_of result ≡ tokens_of line.now }
{
    let code = trim(before_comment(line));
    if !has_count(code) {
        return words_behind(b"".as_slice(), code);
    }
    let (count, behind) = next_word(code);
    words_behind(count, behind)
}
