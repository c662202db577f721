//! The rows of a table.
use crate::cells::Cells;
use crate::facts::Facts;
use crate::naming::Named;
use crate::stage::Stage;
use instructions::Kind;

/// A row: an instruction that was dispatched.
#[derive(Clone, Copy)]
pub struct Row {
    pub line: u64,
    pub named: Named,
    pub cells: Cells,
    /// What the row says of its result, and of the predicted next pc.
    pub value: Option<u32>,
    pub next: Option<u32>,
    /// The pc that the row names, or that it has.
    pub pc: Option<u32>,
    /// The pc of the instruction that is dispatched.
    pub at: Option<u32>,
    pub facts: Facts,
    /// The row is on a wrong path.
    pub is_squashed: bool,
    /// How many were dispatched before it: a multiplication or division counts twice.
    pub position: usize,
}

impl Row {
    /// A row of a line, of which nothing else is known.
    pub(crate) fn of_line(line: u64) -> Row {
        Row {
            line,
            named: Named::Nothing,
            cells: Cells::empty(),
            value: None,
            next: None,
            pc: None,
            at: None,
            facts: Facts::unknown(),
            is_squashed: false,
            position: 0,
        }
    }

    /// The instruction at a position is that of the row.
    pub fn has_position(&self, position: usize) -> bool {
        self.position <= position && position < self.position.saturating_add(self.facts.halves)
    }

    /// The row of a complete table has a cycle for a stage.
    pub fn needs(&self, stage: Stage) -> bool {
        match stage {
            Stage::Let => true,
            Stage::Begin => !self.is_squashed && !self.facts.is_idle,
            Stage::Memory => !self.is_squashed && self.facts.kind == Kind::Loads,
            Stage::Write => !self.is_squashed && self.facts.has_result,
            Stage::Retire => !self.is_squashed,
            Stage::Squash => false,
        }
    }

    /// The first cycle of a stage.
    pub fn first_of(&self, stage: Stage) -> Option<u64> {
        Some(self.cells.of(stage)?.first)
    }

    /// The last cycle of a stage.
    pub fn last_of(&self, stage: Stage) -> Option<u64> {
        Some(self.cells.of(stage)?.last)
    }

    /// A stage after this one has a cycle.
    pub fn goes_on_after(&self, stage: Stage) -> bool {
        let mut is_after = false;
        for other in Stage::all() {
            if is_after && self.cells.of(other).is_some() {
                return true;
            }
            is_after = is_after || other == stage;
        }
        false
    }
}
