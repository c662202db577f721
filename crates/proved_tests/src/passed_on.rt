//! Calls of a writer that is counted, each passed on once.
use crate::same::same;
use counted_io::Counted;
use std::io::{self, ErrorKind, Write};

/// Counts its calls, and fails each second one of a kind.
#[derive(Drop)]
struct Noting {
    writes: u64,
    flushes: u64,
}

// How a call goes after n others.
fn turn(before: u64) -> io::Result<()> {
    if before % 2 == 1 {
        return Err(io::Error::from(ErrorKind::TimedOut));
    }
    Ok(())
}

impl Write for Noting {
    fn write(&mut self, buf: &[u8]) -> io::Result<usize> {
        let before = self.writes;
        self.writes = before.wrapping_add(1);
        turn(before)?;
        Ok(buf.len())
    }

    fn flush(&mut self) -> io::Result<()> {
        let before = self.flushes;
        self.flushes = before.wrapping_add(1);
        turn(before)
    }
}

fn counted_device() -> Counted<Noting> {
    Counted::new(Noting {
        writes: 0,
        flushes: 0,
    })
}

#[test]
fn each_write_and_flush_is_passed_on_once(rt: HostRuntime) {
    let mut writer = counted_device();
    for calls in 1..=6 {
        match writer.write(b"limit") {
            Ok(n) => assert!(rt; calls % 2 == 1 && n == 5),
            Err(error) => assert!(rt; calls % 2 == 0 && error.kind() == ErrorKind::TimedOut),
        }
        match writer.flush() {
            Ok(()) => assert!(rt; calls % 2 == 1),
            Err(error) => assert!(rt; calls % 2 == 0 && error.kind() == ErrorKind::TimedOut),
        }
        same(&rt, &writer.failures(), &(calls / 2 * 2));
    }
    let inner = writer.into_inner();
    same(&rt, &inner.writes, &6);
    same(&rt, &inner.flushes, &6);
}
