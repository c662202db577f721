//! What is wrong with a table, and its text.
use std::alloc::{AllocError, Global};

/// A cell that is wrong.
#[derive(Drop)]
pub struct Wrong {
    /// The number of rows before its own.
    pub row: usize,
    pub column: &'static str,
    /// The cycle in the cell, unless it is empty or names none.
    pub cycle: Option<u64>,
    /// The first cycle that would do.
    pub earliest: Option<u64>,
    pub reason: String,
}

/// The grade of a table.
#[derive(Drop)]
pub struct Grade {
    pub rows: usize,
    pub wrong: Vec<Wrong>,
    /// What is more than the machine has, a line each.
    pub exceeded: Vec<String>,
    /// The table says when instructions commit.
    pub has_commits: bool,
}

impl Grade {
    /// The number of rows without a wrong cell.
    pub fn right(&self) -> usize {
        let mut right = 0usize;
        for row in 0..self.rows {
            if self.wrong.iter().all(|wrong| wrong.row != row) {
                right = right.saturating_add(1);
            }
        }
        right
    }

    /// All rows are right, and nothing is more than the machine has.
    pub fn is_right(&self) -> bool {
        self.wrong.is_empty() && self.exceeded.is_empty()
    }

    /// A line for each wrong cell, and one for the table.
    pub fn text(&self, alloc: Global) -> Result<String, AllocError> {
        let mut out = String::new(alloc);
        for wrong in self.wrong.iter() {
            wrong.push_line(&mut out)?;
        }
        for line in self.exceeded.iter() {
            let line = line.as_str();
            write!(&mut out, "counted: {line}\n")?;
        }
        if !self.has_commits {
            out.push_str(
                "no column says when an instruction commits: the rows are judged up to their results\n",
            )?;
        }
        let (right, rows) = (self.right(), self.rows);
        write!(&mut out, "{right} of {rows} rows are right\n")?;
        Ok(out)
    }

    /// Lines of cells between tabs: the name of the file, how many rows are right, how many there are; and for each wrong cell
    /// that name, two empty cells, its row, column and cycle, the earliest cycle that would do, and why.
    pub fn tsv(&self, alloc: Global, file: &str) -> Result<String, AllocError> {
        let mut out = String::new(alloc);
        let (right, rows) = (self.right(), self.rows);
        write!(&mut out, "{file}\t{right}\t{rows}\t\t\t\t\t\n")?;
        for wrong in self.wrong.iter() {
            write!(&mut out, "{file}\t\t\t")?;
            wrong.push_cells(&mut out)?;
        }
        for line in self.exceeded.iter() {
            let line = line.as_str();
            write!(&mut out, "{file}\t\t\t\t\t\t\tcounted: {line}\n")?;
        }
        Ok(out)
    }
}

fn push_cycle(out: &mut String, cycle: Option<u64>) -> Result<(), AllocError> {
    match cycle {
        Some(cycle) => write!(out, "{cycle}\t"),
        None => out.push_str("\t"),
    }
}

impl Wrong {
    fn push_line(&self, out: &mut String) -> Result<(), AllocError> {
        let row = self.row.saturating_add(1);
        let column = self.column;
        write!(out, "row {row}, {column}")?;
        if let Some(cycle) = self.cycle {
            write!(out, ", cycle {cycle}")?;
        }
        let reason = self.reason.as_str();
        write!(out, ": {reason}")?;
        if let Some(earliest) = self.earliest {
            write!(out, "; the earliest is cycle {earliest}")?;
        }
        out.push_str("\n")
    }

    fn push_cells(&self, out: &mut String) -> Result<(), AllocError> {
        let row = self.row.saturating_add(1);
        let column = self.column;
        write!(out, "{row}\t{column}\t")?;
        push_cycle(out, self.cycle)?;
        push_cycle(out, self.earliest)?;
        let reason = self.reason.as_str();
        write!(out, "{reason}\n")
    }
}
