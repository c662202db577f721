//! Blanks: trimming, and the word up to the next blank.

ghost use Rattle.std.specs.Prelude.{◌≡◌, ◌==◌, position};
ghost use Rattle.std.specs.List.{before_first, after_first};
ghost use Rattle.lexical.specs.Blank.{is_blank, trim, trim_start, trim_end};

/// Whether a byte is a space or a tab.
pub fn is_blank(b: u8) -> bool
    ensures { result ≡ is_blank b }
{
    b == b' ' || b == b'\t'
}

// The place of the first blank of a text.
fn find_blank(text: &[u8]) -> Option<usize>
    ensures { result ≡ position is_blank text.now }
{
    text.iter().position(|b| is_blank(*b))
}

/// The text before the first blank, and the text after it, which is empty where there is none.
#[tactic(auto, using(crate::proofs::Splits::position_none, crate::proofs::Splits::position_some))]
pub fn cut_word(text: &[u8]) -> (&[u8], &[u8])
    ensures word { result.0.now ≡ before_first is_blank text.now }
    ensures rest { result.1.now ≡ after_first is_blank text.now }
{
    match find_blank(text) {
        None => (text, &[]),
        Some(i) => {
            let (word, rest) = text.split_at(i);
            let (_, after) = rest.split_at(1);
            (word, after)
        }
    }
}

// A text without the blanks at its front.
fn trim_start(text: &[u8]) -> &[u8]
    ensures { result.now ≡ trim_start text.now }
{
    let mut rest = text;
    while let [b, after @ ..] = rest {
        if !is_blank(*b) {
            break;
        }
        rest = after;
    }
    rest
}

// A text without the blanks at its end.
fn trim_end(text: &[u8]) -> &[u8]
    ensures { result.now ≡ trim_end text.now }
{
    let mut n = text.len();
    while n > 0 && is_blank(text[n - 1]) {
        n -= 1;
    }
    &text[..n]
}

/// A text without the blanks at its ends.
pub fn trim(text: &[u8]) -> &[u8]
    ensures { result.now ≡ trim text.now }
{
    trim_end(trim_start(text))
}
