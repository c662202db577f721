//! The stages of an instruction, as a table tells them.
/// A stage of an instruction.
#[derive(Clone, Copy, PartialEq)]
pub enum Stage {
    /// The instruction enters a station.
    Let,
    /// Its execution begins.
    Begin,
    /// A load reads memory.
    Memory,
    /// Its result is broadcast.
    Write,
    Retire,
    Squash,
}

impl Stage {
    /// All stages, in the order in which an instruction reaches them.
    pub fn all() -> [Stage; 6] {
        [
            Stage::Let,
            Stage::Begin,
            Stage::Memory,
            Stage::Write,
            Stage::Retire,
            Stage::Squash,
        ]
    }

    /// The name of its column, where the table has none.
    pub fn name(self) -> &'static str {
        match self {
            Stage::Let => "Issue",
            Stage::Begin => "Exec",
            Stage::Memory => "Mem",
            Stage::Write => "Write",
            Stage::Retire => "Commit",
            Stage::Squash => "Squash",
        }
    }
}
