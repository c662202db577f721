//! A text in two parts, before and after a byte.

ghost use Rattle.std.specs.Prelude.{◌≡◌, ◌==◌, ◌<◌, ◌∷◌, length, IfSome, IfNone, position};
ghost use Rattle.std.specs.List.{before_first, slice_split};
ghost use Rattle.std.specs.Option.{option_map};
ghost use Rattle.lexical.specs.Cut.{after_byte, parts_left};

// The first place of a byte in a text.
fn find_byte(text: &[u8], at: u8) -> Option<usize>
    ensures { result ≡ position (λ b. b == at) text.now }
{
    text.iter().position(|b| *b == at)
}

/// The text before the first byte `at`, and the text after it, if there is one.
pub fn cut(text: &[u8], at: u8) -> (&[u8], Option<&[u8]>)
    ensures front { result.0.now ≡ before_first (λ b. b == at) text.now }
    ensures parts { slice_split (λ b. b == at) text.now
        ≡ result.0.now ∷ parts_left at (option_map (λ r. r.now) result.1) }
    ensures rest { option_map (λ r. r.now) result.1 ≡ after_byte at text.now }
    ensures shorter { IfSome result.1 (λ r. length r.now < length text.now) }
    ensures whole { IfNone result.1 (result.0.now ≡ text.now) }
{
    match find_byte(text, at) {
        None => (text, None),
        Some(i) => {
            let (front, rest) = text.split_at(i);
            let (_, after) = rest.split_at(1);
            (front, Some(after))
        }
    }
}
