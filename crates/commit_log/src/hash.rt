//! The hash of a state: FNV-1a in 64 bits, over words in place of bytes.
ghost use Rattle.std.specs.Prelude.{◌≡◌, Some, length};
ghost use Rattle.std.specs.Int.{w32, from_le_bytes};
ghost use Rattle.isa.specs.Report.{hex8};
ghost use Rattle.commit_log.specs.Hashes.{hash_of as hash_by, hash_start, hash_text, mixed as mixed_by, mixed_bytes, mixed_words};

use isa::Hexadecimal;
use std::fmt;

/// The hash of nothing.
const START: u64 = 0xcbf2_9ce4_8422_2325;

/// The number by which each word multiplies a hash.
const PRIME: u64 = 0x100_0000_01b3;

// The hash after one more word.
fn mixed(hash: u64, word: u32) -> u64
    ensures { result ≡ mixed_by hash word }
{
    (hash ^ u64::from(word)).wrapping_mul(PRIME)
}

fn of_registers(registers: &[u32; 34]) -> u64
    ensures { result ≡ mixed_words hash_start registers.now }
{
    let mut hash = START;
    'registers: for value in registers {
        hash = mixed(hash, *value);
    }
    hash
}

// The word of four bytes, the lowest first.
fn word_of(bytes: &[u8]) -> u32
    requires { length bytes.now ≡ 4 }
    ensures { result ≡ from_le_bytes w32 bytes.now }
{
    u32::from_le_bytes([bytes[0], bytes[1], bytes[2], bytes[3]])
}

// The hash after the words of memory.
fn with_memory(hash: u64, memory: &[u8]) -> u64
    ensures { result ≡ mixed_bytes hash memory.now }
{
    let mut hash = hash;
    let mut rest = memory;
    'words: while rest.len() >= 4 {
        let (word, after) = rest.split_at(4);
        hash = mixed(hash, word_of(word));
        rest = after;
    }
    hash
}

/// The hash of registers and data memory: of the registers, the first of them first, LO and HI last, and then of each word
/// of data memory.
pub(crate) fn hash_of(registers: &[u32; 34], memory: &[u8]) -> u64
    ensures { result ≡ hash_by registers.now memory.now }
{
    with_memory(of_registers(registers), memory)
}

// A word as eight hexadecimal digits.
#[derive(Clone, Copy)]
struct Digits(u32);

impl fmt::Display for Digits {
    ghost output = { λ word. Some (hex8 word.0) };

    fn fmt<W: fmt::Write>(&self, f: &mut fmt::Formatter<W>) -> fmt::Result {
        let word = self.0;
        write!(f, "{word:08x}")
    }
}

/// A hash as `0x` and sixteen hexadecimal digits.
#[derive(Clone, Copy)]
pub(crate) struct HashText(pub(crate) u64);

impl fmt::Display for HashText {
    ghost output = { λ hash. Some (hash_text hash.0) };

    fn fmt<W: fmt::Write>(&self, f: &mut fmt::Formatter<W>) -> fmt::Result {
        let high = Hexadecimal((self.0 / 0x1_0000_0000) as u32);
        let low = Digits((self.0 % 0x1_0000_0000) as u32);
        write!(f, "{high}{low}")
    }
}
