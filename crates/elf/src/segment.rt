//! Program headers.
ghost use Rattle.std.specs.Prelude.{◌≡◌, ◌≤◌, ◌+◌, length};
ghost use Rattle.elf.specs.Headers.{segment_of};

use crate::bytes::word_at;

/// The kind of a segment that is loaded.
pub(crate) const PT_LOAD: u32 = 1;

/// The program header of a segment.
#[derive(Clone, Copy)]
pub struct Segment {
    pub kind: u32,
    /// The place in the file at which the segment begins.
    pub offset: u32,
    /// The address at which the segment is loaded.
    pub address: u32,
    /// The number of its bytes in the file.
    pub filled: u32,
    /// The number of its bytes in memory.
    pub size: u32,
}

impl Segment {
    /// The program header at a place of the file.
    pub fn at(file: &[u8], at: usize) -> Segment
        requires { at + 32 ≤ length file.now }
        ensures { result ≡ segment_of file.now at }
    {
        Segment {
            kind: word_at(file, at),
            offset: word_at(file, at + 4),
            address: word_at(file, at + 8),
            filled: word_at(file, at + 16),
            size: word_at(file, at + 20),
        }
    }
}
