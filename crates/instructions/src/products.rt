//! Products and quotients of words, by the half that goes to LO or HI.
ghost use Rattle.std.specs.Prelude.{◌≡◌};
ghost use Rattle.instructions.specs.Products.{word_of_half, quotient as quotient_of, remainder as remainder_of, signed_quotient as signed_quotient_of, signed_remainder as signed_remainder_of, product as product_of, signed_product as signed_product_of, divided as divided_of, signed_divided as signed_divided_of};

use crate::Half;

fn half_of(half: Half, n: u64) -> u32
    ensures { result ≡ word_of_half half n }
{
    match half {
        Half::Low => (n & 0xffff_ffff) as u32,
        Half::High => (n >> 32) as u32,
    }
}

/// A half of the product of 64 bits.
pub fn product(half: Half, a: u32, b: u32) -> u32
    ensures { result ≡ word_of_half half (product_of a b) }
{
    half_of(half, u64::from(a) * u64::from(b))
}

/// A half of the signed product of 64 bits.
pub fn signed_product(half: Half, a: i32, b: i32) -> u32
    ensures { result ≡ word_of_half half (signed_product_of a b) }
{
    half_of(half, (i64::from(a) * i64::from(b)).cast_unsigned())
}

fn quotient(a: u32, b: u32) -> u32
    ensures { result ≡ quotient_of a b }
{
    if b == 0 { 0 } else { a / b }
}

fn remainder(a: u32, b: u32) -> u32
    ensures { result ≡ remainder_of a b }
{
    if b == 0 { a } else { a % b }
}

// The quotient, cut towards zero.
fn signed_quotient(a: i32, b: i32) -> u32
    ensures { result ≡ signed_quotient_of a b }
{
    if b == 0 {
        0
    } else {
        a.wrapping_div(b).cast_unsigned()
    }
}

// The remainder, with the sign of the dividend.
fn signed_remainder(a: i32, b: i32) -> u32
    ensures { result ≡ signed_remainder_of a b }
{
    if b == 0 {
        a.cast_unsigned()
    } else {
        a.wrapping_rem(b).cast_unsigned()
    }
}

/// The quotient, or the remainder. A zero divisor gives quotient 0 and leaves the dividend.
/// MIPS I leaves that case undefined.
pub fn divided(half: Half, a: u32, b: u32) -> u32
    ensures { result ≡ divided_of half a b }
{
    match half {
        Half::Low => quotient(a, b),
        Half::High => remainder(a, b),
    }
}

/// The signed quotient, or the remainder. A zero divisor gives quotient 0 and leaves the dividend.
/// MIPS I leaves that case undefined.
pub fn signed_divided(half: Half, a: i32, b: i32) -> u32
    ensures { result ≡ signed_divided_of half a b }
{
    match half {
        Half::Low => signed_quotient(a, b),
        Half::High => signed_remainder(a, b),
    }
}
