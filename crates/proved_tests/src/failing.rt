//! Readers and writers that fail.
use std::alloc::Global;
use std::io::{self, ErrorKind, Read, Write};

/// A listing whose report has 61 bytes.
pub(crate) const LISTING: &[u8] = b"addiu $1,$0,5\naddu $2,$1,$1\nbreak\n";

pub(crate) const REPORT: &[u8] =
    b"stop break\ncount 2\npc 0x00400008\nr1 0x00000005\nr2 0x0000000a\n";

/// Gives the first bytes of the listing, one a call, and then fails.
#[derive(Drop)]
pub(crate) struct FailingReader {
    pub(crate) given: usize,
    pub(crate) most: usize,
}

impl Read for FailingReader {
    fn read(&mut self, buf: &mut [u8]) -> io::Result<usize> {
        if self.given == self.most || LISTING.len() <= self.given {
            return Err(io::Error::from(ErrorKind::Interrupted));
        }
        if buf.is_empty() {
            return Ok(0);
        }
        buf[0] = LISTING[self.given];
        self.given += 1;
        Ok(1)
    }
}

/// Takes a number of bytes, as many a call as it is said, and then fails or takes none.
#[derive(Drop)]
pub(crate) struct FailingWriter {
    pub(crate) room: usize,
    pub(crate) each: usize,
    pub(crate) is_silent: bool,
    pub(crate) taken: Vec<u8>,
}

impl FailingWriter {
    pub(crate) fn new(alloc: Global, room: usize, is_silent: bool) -> FailingWriter {
        FailingWriter {
            room,
            each: room,
            is_silent,
            taken: Vec::new(alloc),
        }
    }
}

impl Write for FailingWriter {
    fn write(&mut self, buf: &[u8]) -> io::Result<usize> {
        if self.room == 0 && self.is_silent {
            return Ok(0);
        }
        if self.room == 0 {
            return Err(io::Error::from(ErrorKind::Interrupted));
        }
        let n = self.room.min(buf.len()).min(self.each);
        self.room -= n;
        self.taken.extend_from_slice(&buf[..n])?;
        Ok(n)
    }

    fn flush(&mut self) -> io::Result<()> {
        Ok(())
    }
}
