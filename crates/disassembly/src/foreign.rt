//! Words that are no operation of a listing.
ghost use Rattle.std.specs.Prelude.{◌≡◌};
ghost use Rattle.disassembly.specs.Foreign.{foreign_of};

use thiserror::Error;

/// A word that is no operation of a listing, by its name in MIPS I.
#[derive(Clone, Copy, Debug, PartialEq, Eq, Error)]
pub enum Foreign {
    #[error("syscall")]
    Syscall,
    #[error("break with a code")]
    Break,
    #[error("bltzal")]
    Bltzal,
    #[error("bgezal")]
    Bgezal,
    #[error("lwl")]
    Lwl,
    #[error("lwr")]
    Lwr,
    #[error("swl")]
    Swl,
    #[error("swr")]
    Swr,
    #[error("of a coprocessor")]
    Coprocessor,
    #[error("no operation of MIPS I")]
    Unknown,
}

// The name of a word with opcode 0.
fn special(function: u32) -> Foreign
    ensures { result ≡ Rattle.disassembly.specs.Foreign.special function }
{
    match function {
        12 => Foreign::Syscall,
        13 => Foreign::Break,
        _ => Foreign::Unknown,
    }
}

// The name of a word with opcode 1.
fn linking(selected: u32) -> Foreign
    ensures { result ≡ Rattle.disassembly.specs.Foreign.linking selected }
{
    match selected {
        16 => Foreign::Bltzal,
        17 => Foreign::Bgezal,
        _ => Foreign::Unknown,
    }
}

// The name of a word with another opcode.
fn other(opcode: u32) -> Foreign
    ensures { result ≡ Rattle.disassembly.specs.Foreign.other opcode }
{
    match opcode {
        34 => Foreign::Lwl,
        38 => Foreign::Lwr,
        42 => Foreign::Swl,
        46 => Foreign::Swr,
        _ => match opcode / 4 {
            4 | 12 | 14 => Foreign::Coprocessor,
            _ => Foreign::Unknown,
        },
    }
}

/// The name in MIPS I of a word that is no operation of a listing.
pub fn foreign_word(word: u32) -> Foreign
    ensures { result ≡ foreign_of word }
{
    match word >> 26 {
        0 => special(word % 64),
        1 => linking((word >> 16) % 32),
        opcode => other(opcode),
    }
}
