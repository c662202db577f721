//! The machine word of an instruction.
ghost use Rattle.std.specs.Prelude.{◌≡◌, Some};
ghost use Rattle.commit_log.specs.Words.{word_of as word_at};
ghost use Rattle.commit_log.specs.Lines.{word_column};

use encoding::{Decoded, encode};
use instructions::Instr;
use isa::Hexadecimal;
use std::fmt;

/// The word of an instruction at a pc, where MIPS I has one.
pub(crate) fn word_of(pc: u32, instr: &Instr) -> Option<u32>
    ensures { result ≡ word_at pc instr.now }
{
    let decoded = Decoded::from(*instr);
    encode(&decoded, pc)
}

/// A word, or as many dashes where there is none.
#[derive(Clone, Copy)]
pub(crate) struct WordText(pub(crate) Option<u32>);

impl fmt::Display for WordText {
    ghost output = { λ word. Some (word_column word.0) };

    fn fmt<W: fmt::Write>(&self, f: &mut fmt::Formatter<W>) -> fmt::Result {
        match self.0 {
            None => f.write_str("----------"),
            Some(word) => {
                let word = Hexadecimal(word);
                write!(f, "{word}")
            }
        }
    }
}
