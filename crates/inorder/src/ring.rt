//! Places in a ring.
ghost use Rattle.std.specs.Prelude.{◌≡◌, ◌<◌, ◌+◌, ◌%◌};

/// A number below two rings modulo the ring size, without a division.
#[inline(always)]
pub fn wrapped(n: usize, ring: usize) -> usize
    requires { n < ring + ring }
    ensures value { result ≡ n % ring }
    ensures small { result < ring }
{
    if n < ring { n } else { n - ring }
}
