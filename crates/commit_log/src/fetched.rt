//! An instruction that is about to run.

use instructions::Instr;

/// An instruction that is about to run, and where.
#[derive(Clone, Copy)]
pub(crate) struct Fetched {
    pub(crate) pc: u32,
    pub(crate) instr: Instr,
    /// The sum of its first source and its number: the address that a load or store accesses.
    pub(crate) address: u32,
}
