//! The outcomes of an instruction, and the stops of a program.
ghost use Rattle.std.specs.Prelude.{◌≡◌, ◌<◌, Some};
ghost use Rattle.instructions.specs.Endings.{stop_word};
ghost use Rattle.instructions.specs.Operations.{code_of};

use std::fmt;

/// Why a program stops. A stop writes nothing and leaves the pc at the stopping instruction.
#[derive(Clone, Copy, Debug, PartialEq, Eq)]
pub enum Stop {
    /// `break`.
    Break,
    /// The signed sum or difference of `add`, `addi` or `sub` does not fit 32 bits.
    Overflow,
    /// The address of a halfword is odd, or that of a word is no multiple of 4.
    Unaligned,
    /// The access is aligned and reaches past the end of data memory.
    OutOfRange,
    /// The pc is the address of no instruction.
    BadPc,
}

impl Stop {
    /// The number of the stop, 0 to 4.
    pub fn code(self) -> u32
        ensures { result ≡ code_of self }
    {
        match self {
            Stop::Break => 0,
            Stop::Overflow => 1,
            Stop::Unaligned => 2,
            Stop::OutOfRange => 3,
            Stop::BadPc => 4,
        }
    }

    /// The stop with a number.
    pub fn of_code(code: u32) -> Stop
        requires { code < 5 }
        ensures { code_of result ≡ code }
    {
        match code {
            0 => Stop::Break,
            1 => Stop::Overflow,
            2 => Stop::Unaligned,
            3 => Stop::OutOfRange,
            _ => Stop::BadPc,
        }
    }
}

/// The word of the stop, as a report has it.
impl fmt::Display for Stop {
    ghost output = { λ stop. Some (stop_word stop) };

    fn fmt<W: fmt::Write>(&self, f: &mut fmt::Formatter<W>) -> fmt::Result {
        f.write_str(match self {
            Stop::Break => "break",
            Stop::Overflow => "overflow",
            Stop::Unaligned => "unaligned",
            Stop::OutOfRange => "range",
            Stop::BadPc => "badpc",
        })
    }
}

/// The outcome of an instruction.
#[derive(Clone, Copy, Debug, PartialEq)]
pub enum Outcome {
    /// The value for its register.
    Value(u32),
    /// The pc after a branch or jump.
    Next(u32),
    /// The address of a load or store, aligned and inside data memory.
    Address(u32),
    /// Why the instruction stops.
    Stop(Stop),
    /// The values for LO and HI.
    Pair(u32, u32),
}
