//! How a run ends.
ghost use Rattle.std.specs.Prelude.{Some};
ghost use Rattle.instructions.specs.Endings.{ending_words};

use crate::Stop;
use std::fmt;

/// How a run ends: by a stop, or because its count has reached the limit.
#[derive(Clone, Copy, Debug, PartialEq)]
pub enum Ending {
    Stop(Stop),
    Limit,
}

/// The words of an ending, as a report has them.
impl fmt::Display for Ending {
    ghost output = { λ ending. Some (ending_words ending) };

    fn fmt<W: fmt::Write>(&self, f: &mut fmt::Formatter<W>) -> fmt::Result {
        match self {
            Ending::Stop(stop) => write!(f, "stop {stop}"),
            Ending::Limit => f.write_str("limit"),
        }
    }
}

/// The end of a run: the number of instructions that it ran, and the state after them.
#[derive(Drop)]
pub struct End {
    /// The number of instructions that were run, without the one that stops.
    pub n: u64,
    /// The address at which the next instruction would run, or of the one that stops.
    pub pc: u32,
    /// Why the run ended.
    pub outcome: Ending,
    /// Registers 0 to 31, then LO and HI.
    pub registers: [u32; 34],
    /// The bytes of data memory.
    pub memory: Vec<u8>,
}
