//! Numbers: an optional sign, then decimal or hexadecimal digits.

ghost use Rattle.std.specs.Prelude.{◌≡◌, ◌≤◌, IfSome};
ghost use Rattle.std.specs.Option.{option_map};
ghost use Rattle.lexical.specs.Number.{capped, first_is, numeral, has_leading_zero, decimal, starts_hex, magnitude};
ghost use Rattle.lexical.specs.Number.{begins_number, without_sign, at_most, number_in, decimal_in};

// One more than the greatest bound of a range. A greater magnitude counts as this one.
const CAP: u64 = 0x1_0000_0000;

// The value of digits in a radix, but at most the cap.
#[tactic(auto, unfolding(crate::specs::Number::numeral))]
fn numeral(digits: &[u8], radix: u32) -> Option<u64>
    requires low { 2 ≤ radix }
    requires high { radix ≤ 16 }
    ensures { result ≡ option_map capped (numeral radix digits.now) }
{
    if digits.is_empty() {
        return None;
    }
    let mut value = 0u64;
    for b in digits {
        let digit = char::from(*b).to_digit(radix)?;
        value = (value * u64::from(radix) + u64::from(digit)).min(CAP);
    }
    Some(value)
}

// Whether digits begin with a zero that is not alone.
fn has_leading_zero(text: &[u8]) -> bool
    ensures { result ≡ has_leading_zero text.now }
{
    text.len() > 1 && text[0] == b'0'
}

#[tactic(auto, unfolding(crate::specs::Number::decimal))]
fn decimal(text: &[u8]) -> Option<u64>
    ensures { result ≡ option_map capped (decimal text.now) }
{
    if has_leading_zero(text) {
        None
    } else {
        numeral(text, 10)
    }
}

// Whether a text begins with `0x` or `0X`.
fn starts_hex(text: &[u8]) -> bool
    ensures { result ≡ starts_hex text.now }
{
    text.len() > 1 && text[0] == b'0' && (text[1] == b'x' || text[1] == b'X')
}

#[tactic(auto, unfolding(crate::specs::Number::magnitude))]
fn magnitude(text: &[u8]) -> Option<u64>
    ensures { result ≡ option_map capped (magnitude text.now) }
{
    if starts_hex(text) {
        let (_, digits) = text.split_at(2);
        numeral(digits, 16)
    } else {
        decimal(text)
    }
}

/// Whether a text begins with this byte.
pub fn first_is(text: &[u8], b: u8) -> bool
    ensures { result ≡ first_is b text.now }
{
    !text.is_empty() && text[0] == b
}

// A text without its sign.
fn without_sign(text: &[u8]) -> &[u8]
    ensures { result.now ≡ without_sign text.now }
{
    if first_is(text, b'+') || first_is(text, b'-') {
        let (_, digits) = text.split_at(1);
        digits
    } else {
        text
    }
}

// A magnitude that is not above a bound.
fn at_most(most: u32, found: Option<u64>) -> Option<u32>
    ensures value { result ≡ at_most most found }
    ensures small { IfSome result (λ n. n ≤ most) }
{
    match found {
        Some(value) if value <= u64::from(most) => Some(value as u32),
        _ => None,
    }
}

/// Whether a text begins as a number does: by a digit, `+` or `-`.
pub fn begins_number(text: &[u8]) -> bool
    ensures { result ≡ begins_number text.now }
{
    !text.is_empty() && (text[0] == b'+' || text[0] == b'-' || text[0].is_ascii_digit())
}

/// A number modulo 2^32: at most `below` behind a minus, and at most `above` without one. `None` is
/// for a text that is no number, or one out of this range.
#[tactic(auto, unfolding(crate::specs::Number::number_in), using(crate::proofs::Numbers::at_most_capped))]
pub fn number_in(text: &[u8], below: u32, above: u32) -> Option<u32>
    ensures { result ≡ number_in below above text.now }
{
    let found = magnitude(without_sign(text));
    if first_is(text, b'-') {
        let value = at_most(below, found)?;
        Some(value.wrapping_neg())
    } else {
        at_most(above, found)
    }
}

/// A decimal number without a sign, at most `most`.
#[tactic(auto, unfolding(crate::specs::Number::decimal_in), using(crate::proofs::Numbers::at_most_capped))]
pub fn decimal_in(text: &[u8], most: u32) -> Option<u32>
    ensures value { result ≡ decimal_in most text.now }
    ensures small { IfSome result (λ n. n ≤ most) }
{
    at_most(most, decimal(text))
}
