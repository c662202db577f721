//! Words as lines, each after its address.
ghost use Rattle.std.specs.Prelude.{◌≡◌, ◌≤◌, ◌++◌, IfOk, OnOk, length, string_bytes};
ghost use Rattle.std.specs.Int.{w32, from_le_bytes};
ghost use Rattle.words.specs.Lines.{data_lines, text_for, word_line, word_lines};

use instructions::Program;
use isa::Hexadecimal;
use std::alloc::{AllocError, Global};

// Adds the line of a word.
fn push_word(out: &mut String, address: u32, word: u32) -> Result<(), AllocError>
    ensures { OnOk result (string_bytes out.new ≡ string_bytes out.old ++ word_line address word) }
{
    let address = Hexadecimal(address);
    let word = Hexadecimal(word);
    write!(out, "{address} {word}\n")
}

// Adds the lines of the words of a text.
fn push_text(out: &mut String, words: &[u32]) -> Result<(), AllocError>
    requires { length words.now ≤ 16384 }
    ensures { OnOk result (string_bytes out.new
        ≡ string_bytes out.old ++ word_lines 0x00400000 words.now) }
{
    let mut address = Program::START;
    'words: for word in words {
        push_word(out, address, *word)?;
        address += 4;
    }
    Ok(())
}

// The word of four bytes, the lowest first.
fn word_of(bytes: &[u8]) -> u32
    requires { length bytes.now ≡ 4 }
    ensures { result ≡ from_le_bytes w32 bytes.now }
{
    u32::from_le_bytes([bytes[0], bytes[1], bytes[2], bytes[3]])
}

// Adds the lines of the words of data memory.
fn push_data(out: &mut String, bytes: &[u8]) -> Result<(), AllocError>
    requires { length bytes.now ≤ 65536 }
    ensures { OnOk result (string_bytes out.new ≡ string_bytes out.old ++ data_lines 0 bytes.now) }
{
    let mut address = 0u32;
    let mut rest = bytes;
    'words: while rest.len() >= 4 {
        let (word, after) = rest.split_at(4);
        push_word(out, address, word_of(word))?;
        address += 4;
        rest = after;
    }
    Ok(())
}

/// The lines of the words of a text, and then of data memory.
pub(crate) fn text_of(alloc: Global, words: &[u32], bytes: &[u8]) -> Result<String, AllocError>
    requires words { length words.now ≤ 16384 }
    requires bytes { length bytes.now ≤ 65536 }
    ensures { IfOk result (λ text. string_bytes text ≡ text_for words.now bytes.now) }
{
    let mut out = String::new(alloc);
    push_text(&mut out, words)?;
    push_data(&mut out, bytes)?;
    Ok(out)
}
