//! Devices that fail in the middle.
use crate::same::same;
use counted_io::{Counted, Fault, WriteFailed, read_up_to, write_whole};
use std::io::{self, ErrorKind, Read, Write};

/// Gives n bytes, one a call, and then fails.
#[derive(Drop)]
struct FailingReader {
    left: u32,
}

impl Read for FailingReader {
    fn read(&mut self, buf: &mut [u8]) -> io::Result<usize> {
        if self.left == 0 {
            return Err(io::Error::from(ErrorKind::Interrupted));
        }
        if buf.is_empty() {
            return Ok(0);
        }
        self.left -= 1;
        buf[0] = b'a';
        Ok(1)
    }
}

/// Takes n bytes, two a call at most, and then fails or takes none.
#[derive(Drop)]
struct FailingWriter {
    room: usize,
    is_silent: bool,
    taken: Vec<u8>,
}

impl Write for FailingWriter {
    fn write(&mut self, buf: &[u8]) -> io::Result<usize> {
        if self.room == 0 && self.is_silent {
            return Ok(0);
        }
        if self.room == 0 {
            return Err(io::Error::from(ErrorKind::Interrupted));
        }
        let n = self.room.min(buf.len()).min(2);
        self.room -= n;
        self.taken.extend_from_slice(&buf[..n])?;
        Ok(n)
    }

    fn flush(&mut self) -> io::Result<()> {
        if self.room == 0 {
            return Err(io::Error::from(ErrorKind::Other));
        }
        Ok(())
    }
}

#[test]
fn a_failed_read_is_a_fault_and_is_counted(rt: HostRuntime) {
    for left in 0..4 {
        let mut reader = Counted::new(FailingReader { left });
        let went = read_up_to(rt.alloc(), &mut reader, 10);
        assert!(rt; matches!(&went, Err(Fault::Read)));
        same(&rt, &reader.failures(), &1);
    }
}

#[test]
fn a_writer_that_fails_keeps_a_beginning(rt: HostRuntime) {
    let text: &[u8] = b"limit\ncount 3\n";
    for is_silent in [false, true] {
        for room in 0..text.len() {
            let taken = Vec::new(rt.alloc());
            let mut writer = Counted::new(FailingWriter {
                room,
                is_silent,
                taken,
            });
            same(&rt, &write_whole(&mut writer, text), &Err(WriteFailed));
            same(&rt, &writer.failures(), &1);
            assert!(rt; writer.flush().is_err());
            same(&rt, &writer.failures(), &2);
            same(&rt, &writer.into_inner().taken.as_slice(), &&text[..room]);
        }
    }
}

#[test]
fn a_writer_with_room_gets_the_whole_text(rt: HostRuntime) {
    let taken = Vec::new(rt.alloc());
    let is_silent = true;
    let mut writer = Counted::new(FailingWriter {
        room: 15,
        is_silent,
        taken,
    });
    let text: &[u8] = b"limit\ncount 3\n";
    same(&rt, &write_whole(&mut writer, text), &Ok(()));
    assert!(rt; writer.flush().is_ok());
    assert!(rt; matches!(writer.write(b""), Ok(0)));
    same(&rt, &writer.failures(), &0);
    same(&rt, &writer.into_inner().taken.as_slice(), &text);
}
