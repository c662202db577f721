//! A table as events.
use crate::columns::Columns;
use crate::making::made;
use crate::misread::{Flaw, Trouble};
use crate::order::{Within, in_order};
use crate::path::located;
use crate::placed::Placed;
use crate::row::Row;
use crate::table::{Table, table_in};
use events::Issue;
use instructions::Program;
use std::alloc::Global;

/// A table as events.
#[derive(Drop)]
pub struct Sheet {
    pub columns: Columns,
    pub rows: Vec<Row>,
    /// In the order in which they are judged. Where a cell is empty that a complete table has, its event is missing.
    pub events: Vec<Placed>,
}

/// Reads a table: its rows, and their events in order.
pub fn sheet_in(
    alloc: Global,
    program: &Program,
    bytes: &[u8],
    issue: Issue,
    within: Within,
) -> Result<Sheet, Trouble> {
    let Table { columns, rows } = table_in(alloc, program, bytes, issue)?;
    sheet_of(alloc, program, columns, rows.as_slice(), within)
}

/// The rows of a table, and their events in order.
pub(crate) fn sheet_of(
    alloc: Global,
    program: &Program,
    columns: Columns,
    rows: &[Row],
    within: Within,
) -> Result<Sheet, Trouble> {
    let rows = located(alloc, program, &columns, rows)?;
    let made = made(alloc, &columns, rows.as_slice(), within)?;
    let events = in_order(alloc, made.as_slice(), within)?;
    Ok(Sheet {
        columns,
        rows,
        events,
    })
}

impl Sheet {
    /// The events without those that are missing; or the first row that lacks a cycle before another one.
    pub fn told(&self, alloc: Global) -> Result<Vec<Placed>, Trouble> {
        let mut told = Vec::new(alloc);
        for placed in self.events.iter() {
            if !placed.is_missing {
                told.push(*placed)?;
            } else if self.goes_on(placed) {
                let cell = self.columns.cell_of(placed.stage);
                return Err(Trouble::at(placed.place.line, cell, Flaw::Missing));
            }
        }
        Ok(told)
    }

    // The row of a missing event has a later one.
    fn goes_on(&self, missing: &Placed) -> bool {
        match self.rows.as_slice().get(missing.row) {
            Some(row) => row.goes_on_after(missing.stage),
            None => false,
        }
    }

    /// The row of the instruction at a position.
    pub fn row_at(&self, position: usize) -> Option<usize> {
        self.rows.iter().position(|row| row.has_position(position))
    }
}
