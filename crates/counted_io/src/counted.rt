//! A reader or a writer that counts the calls of it that failed.

ghost use Rattle.std.specs.Prelude.{◌≡◌, OnOk, OnErr, length};
ghost use Rattle.std.specs.Io.KnownBytes.{ReadConsumes, WriteAppends, Keeps};
ghost use Rattle.std.specs.Io.{ReadsAtMost, WritesAtMost};
ghost use Rattle.counted_io.specs.Counted.{inner_of, failures_of, known_by, raised, counted, write_fails};

use std::io::{self, Read, Write};

/// Passes each call on, and counts those that failed: an error, or a write that takes no byte of
/// some. The count stays at the greatest number of 64 bits once it is there, so whoever concludes
/// from it that a call failed asks first that it is below that.
#[derive(Drop)]
pub struct Counted<I> {
    inner: I,
    failures: u64,
}

impl<I> Counted<I> {
    /// Passes calls on to `inner`. No call has failed yet.
    pub fn new(inner: I) -> Counted<I>
        ensures inner { inner_of result ≡ inner }
        ensures failures { failures_of result ≡ 0 }
    {
        Counted { inner, failures: 0 }
    }

    /// How many calls have failed, up to 2^64 - 1.
    pub fn failures(&self) -> u64
        ensures { result ≡ failures_of self.now }
    {
        self.failures
    }

    /// What calls were passed on to.
    pub fn into_inner(self) -> I
        ensures { result ≡ inner_of self }
    {
        self.inner
    }

    // Counts a call, if it failed.
    fn count(&mut self, failed: bool)
        ensures inner { inner_of self.new ≡ inner_of self.old }
        ensures failures { failures_of self.new ≡ counted failed (failures_of self.old) }
    {
        if failed {
            self.failures = self.failures.saturating_add(1);
        }
    }
}

impl<R: Read> Read for Counted<R> {
    ghost remaining = { λ s. known_by R.remaining s };

    fn read(&mut self, buf: &mut [u8]) -> io::Result<usize>
        ensures bound { ReadsAtMost result buf.new }
        ensures bytes { ReadConsumes (known_by R.remaining self.old)
            (known_by R.remaining self.new) result buf.new }
        ensures ok { OnOk result (failures_of self.new ≡ failures_of self.old) }
        ensures err { OnErr result (failures_of self.new ≡ raised (failures_of self.old)) }
    {
        let given = self.inner.read(buf);
        self.count(given.is_err());
        given
    }
}

impl<W: Write> Write for Counted<W> {
    ghost contents = { λ s. known_by W.contents s };

    fn write(&mut self, buf: &[u8]) -> io::Result<usize>
        ensures bound { WritesAtMost result buf.now }
        ensures bytes { WriteAppends (known_by W.contents self.old)
            (known_by W.contents self.new) result buf.now }
        ensures failures { failures_of self.new
            ≡ counted (write_fails result (length buf.now)) (failures_of self.old) }
    {
        let taken = self.inner.write(buf);
        self.count(has_failed(&taken, buf.len()));
        taken
    }

    fn flush(&mut self) -> io::Result<()>
        ensures bytes { Keeps (known_by W.contents self.old) (known_by W.contents self.new) }
        ensures ok { OnOk result (failures_of self.new ≡ failures_of self.old) }
        ensures err { OnErr result (failures_of self.new ≡ raised (failures_of self.old)) }
    {
        let flushed = self.inner.flush();
        self.count(flushed.is_err());
        flushed
    }
}

// Whether a write of n bytes failed: an error, or none taken of some.
fn has_failed(outcome: &io::Result<usize>, len: usize) -> bool
    ensures { result ≡ write_fails outcome.now len }
{
    match outcome {
        Ok(taken) => *taken == 0 && len > 0,
        Err(_) => true,
    }
}
