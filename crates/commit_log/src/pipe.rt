//! A writer that notices when nobody reads any more.

use std::io::{self, ErrorKind, Write};

/// Passes calls on, and keeps whether the last write failed since nobody reads any more.
#[derive(Drop)]
pub(crate) struct Pipe<W> {
    inner: W,
    is_gone: bool,
}

impl<W> Pipe<W> {
    pub(crate) fn new(inner: W) -> Pipe<W> {
        Pipe {
            inner,
            is_gone: false,
        }
    }

    /// Whether nobody reads any more.
    pub(crate) fn is_gone(&self) -> bool {
        self.is_gone
    }
}

impl<W: Write> Write for Pipe<W> {
    ghost contents = { λ s. W.contents s.inner };

    fn write(&mut self, buf: &[u8]) -> io::Result<usize> {
        let taken = self.inner.write(buf);
        self.is_gone = match &taken {
            Ok(_) => false,
            Err(error) => error.kind() == ErrorKind::BrokenPipe,
        };
        taken
    }

    fn flush(&mut self) -> io::Result<()> {
        self.inner.flush()
    }
}
