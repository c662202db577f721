//! The columns of a table.
use crate::misread::{Flaw, Trouble};
use crate::stage::Stage;
use csv::ByteRecord;
use events::Issue;
use lexical::trim;
use std::alloc::{AllocError, Global};

/// What a column says of an instruction.
#[derive(Clone, Copy, PartialEq)]
pub enum Column {
    Instr,
    /// The cycle in which it enters a station, or in which its execution begins.
    Issue,
    Cycle(Stage),
    /// Its result.
    Value,
    /// The predicted next pc.
    Next,
    /// Nothing that is judged.
    Note,
}

static NAMES: [(&str, Column); 42] = [
    ("Instruction", Column::Instr),
    ("Instr", Column::Instr),
    ("PC", Column::Instr),
    ("Issue", Column::Issue),
    ("Let", Column::Cycle(Stage::Let)),
    ("Dispatch", Column::Cycle(Stage::Let)),
    ("Begin", Column::Cycle(Stage::Begin)),
    ("Start", Column::Cycle(Stage::Begin)),
    ("Exec", Column::Cycle(Stage::Begin)),
    ("Execute", Column::Cycle(Stage::Begin)),
    ("Execution", Column::Cycle(Stage::Begin)),
    ("Ex", Column::Cycle(Stage::Begin)),
    ("Mem", Column::Cycle(Stage::Memory)),
    ("Memory", Column::Cycle(Stage::Memory)),
    ("Mem access", Column::Cycle(Stage::Memory)),
    ("Memory access", Column::Cycle(Stage::Memory)),
    ("Read", Column::Cycle(Stage::Memory)),
    ("Write", Column::Cycle(Stage::Write)),
    ("Write CDB", Column::Cycle(Stage::Write)),
    ("Write result", Column::Cycle(Stage::Write)),
    ("Writeback", Column::Cycle(Stage::Write)),
    ("Write back", Column::Cycle(Stage::Write)),
    ("WB", Column::Cycle(Stage::Write)),
    ("CDB", Column::Cycle(Stage::Write)),
    ("Complete", Column::Cycle(Stage::Write)),
    ("Result", Column::Cycle(Stage::Write)),
    ("End", Column::Cycle(Stage::Write)),
    ("Commit", Column::Cycle(Stage::Retire)),
    ("Retire", Column::Cycle(Stage::Retire)),
    ("Squash", Column::Cycle(Stage::Squash)),
    ("Squashed", Column::Cycle(Stage::Squash)),
    ("Flush", Column::Cycle(Stage::Squash)),
    ("Flushed", Column::Cycle(Stage::Squash)),
    ("Value", Column::Value),
    ("Next", Column::Next),
    ("No", Column::Note),
    ("#", Column::Note),
    ("Row", Column::Note),
    ("Note", Column::Note),
    ("Notes", Column::Note),
    ("Comment", Column::Note),
    ("Comments", Column::Note),
];

// A column, by its name in the table above.
#[derive(Clone, Copy)]
struct Head {
    name: &'static str,
    column: Column,
}

fn head_in(cell: &[u8]) -> Option<Head> {
    for (name, column) in NAMES.iter() {
        if name.as_bytes().eq_ignore_ascii_case(cell) {
            return Some(Head {
                name: *name,
                column: *column,
            });
        }
    }
    None
}

/// A cell is the name of a column.
pub(crate) fn is_name(cell: &[u8]) -> bool {
    head_in(cell).is_some()
}

/// The columns of a table, from the left on.
#[derive(Drop)]
pub struct Columns {
    heads: Vec<Head>,
}

impl Columns {
    /// The columns of a header, which is in a line.
    pub(crate) fn of_header(
        alloc: Global,
        line: u64,
        header: &ByteRecord,
        issue: Issue,
    ) -> Result<Columns, Trouble> {
        let mut heads = Vec::new(alloc);
        for (at, cell) in header.iter().enumerate() {
            match head_in(trim(cell)) {
                Some(head) => heads.push(head)?,
                None if trim(cell).is_empty() => heads.push(Head {
                    name: "",
                    column: Column::Note,
                })?,
                None => return Err(Trouble::at(line, at.saturating_add(1), Flaw::NoColumn)),
            }
        }
        let columns = Columns { heads }.with_issue(alloc, issue)?;
        columns.checked(line)
    }

    /// Columns for stages.
    pub(crate) fn of_stages(alloc: Global, stages: &[Stage]) -> Result<Columns, AllocError> {
        let mut heads = Vec::new(alloc);
        for stage in stages {
            heads.push(Head {
                name: stage.name(),
                column: Column::Cycle(*stage),
            })?;
        }
        Ok(Columns { heads })
    }

    // Issue is the dispatch, but the begin of execution where another column has the dispatch.
    fn with_issue(self, alloc: Global, issue: Issue) -> Result<Columns, Trouble> {
        let stage = match issue {
            Issue::Dispatch => Stage::Let,
            Issue::Execute => Stage::Begin,
            Issue::Ambiguous if self.has(Stage::Let) => Stage::Begin,
            Issue::Ambiguous => Stage::Let,
        };
        let mut heads = Vec::new(alloc);
        for head in self.heads.iter() {
            heads.push(match head.column {
                Column::Issue => Head {
                    name: head.name,
                    column: Column::Cycle(stage),
                },
                _ => *head,
            })?;
        }
        Ok(Columns { heads })
    }

    // No two columns say the same, and one has the dispatch.
    fn checked(self, line: u64) -> Result<Columns, Trouble> {
        for (at, head) in self.heads.iter().enumerate() {
            if head.column != Column::Note && self.place_of(head.column) < at {
                return Err(Trouble::at(line, at.saturating_add(1), Flaw::Doubled));
            }
        }
        if self.has(Stage::Let) {
            Ok(self)
        } else {
            Err(Trouble::at(line, 0, Flaw::NoDispatch))
        }
    }

    // The number of columns before one; of all, where there is none such.
    fn place_of(&self, column: Column) -> usize {
        match self.heads.iter().position(|head| head.column == column) {
            Some(at) => at,
            None => self.heads.len(),
        }
    }

    /// The columns have a stage.
    pub fn has(&self, stage: Stage) -> bool {
        self.heads
            .iter()
            .any(|head| head.column == Column::Cycle(stage))
    }

    // The number of a column's cell in its row, from 1 on; 0 where there is none.
    fn number_of(&self, column: Column) -> usize {
        match self.place_of(column) {
            at if at < self.heads.len() => at.saturating_add(1),
            _ => 0,
        }
    }

    /// The number of a stage's cell in its row, from 1 on; 0 where there is none.
    pub fn cell_of(&self, stage: Stage) -> usize {
        self.number_of(Column::Cycle(stage))
    }

    /// The number of the cell that names the instruction.
    pub(crate) fn instr_cell(&self) -> usize {
        self.number_of(Column::Instr)
    }

    /// The name of a stage's column.
    pub fn name_of(&self, stage: Stage) -> &'static str {
        for head in self.heads.iter() {
            if head.column == Column::Cycle(stage) {
                return head.name;
            }
        }
        stage.name()
    }

    /// The column of a cell, by the number of cells before it.
    pub(crate) fn at(&self, at: usize) -> Option<Column> {
        Some(self.heads.as_slice().get(at)?.column)
    }
}
