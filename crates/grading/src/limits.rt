//! Widths, buses, units and latencies: counted on a table, and no theorem.
use crate::said::{Sort, said};
use instructions::{Op, Program};
use sheets::{Placed, Row, Sheet, Stage};
use std::alloc::{AllocError, Global};

/// What a machine has for an operation: how many cycles it takes, or how many execute at once.
#[derive(Clone, Copy)]
pub struct Bound {
    pub op: Op,
    pub n: u64,
}

/// What a machine has; where nothing is said, any number is.
#[derive(Clone, Copy)]
pub struct Limits<'a> {
    /// The most dispatches, begins of execution, results and commits of a cycle.
    pub lets: Option<u64>,
    pub begins: Option<u64>,
    pub results: Option<u64>,
    pub commits: Option<u64>,
    /// The cycles from the begin of an operation to its result.
    pub latencies: &'a [Bound],
    /// The most that execute in a cycle.
    pub units: &'a [Bound],
}

// The counting of a table: what it has found, a line each.
#[derive(Drop)]
struct Counting<'a> {
    alloc: Global,
    program: &'a Program,
    sheet: &'a Sheet,
    lines: Vec<String>,
}

fn operation(program: &Program, row: &Row) -> Option<Op> {
    Some(program.fetch(row.at?)?.op())
}

// The cycle of a stage, and the row.
type Entry = (u64, usize);

impl Counting<'_> {
    // The rows that have something in a cycle, by cycles. A result is that of a row that makes one.
    fn entries(&self, sort: Sort) -> Result<Vec<Entry>, AllocError> {
        let mut entries = Vec::new(self.alloc);
        for (at, row) in self.sheet.rows.iter().enumerate() {
            match said(self.sheet, at, sort) {
                Some(
                    Placed {
                        place,
                        is_missing: false,
                        ..
                    },
                ) if sort != Sort::End || row.facts.has_result => {
                    entries.push((place.cycle, at))?;
                }
                _ => {}
            }
        }
        entries.sort()?;
        Ok(entries)
    }

    // Each cycle that has more than it may.
    fn count(&mut self, sort: Sort, most: Option<u64>, what: &str) -> Result<(), AllocError> {
        let Some(most) = most else {
            return Ok(());
        };
        let entries = self.entries(sort)?;
        let mut from = 0usize;
        for (at, (cycle, _)) in entries.iter().enumerate() {
            match entries.as_slice().get(at.saturating_add(1)) {
                Some((next, _)) if *next == *cycle => {}
                _ => {
                    let group = entries
                        .as_slice()
                        .get(from..at.saturating_add(1))
                        .unwrap_or(&[]);
                    self.push_group(group, *cycle, most, what)?;
                    from = at.saturating_add(1);
                }
            }
        }
        Ok(())
    }

    fn push_group(
        &mut self,
        group: &[Entry],
        cycle: u64,
        most: u64,
        what: &str,
    ) -> Result<(), AllocError> {
        let n = group.len();
        if n as u64 <= most {
            return Ok(());
        }
        let mut line = format!(in self.alloc;
            "cycle {cycle} has {n} {what}, and at most {most}: rows"
        )?;
        for (at, (_, row)) in group.iter().enumerate() {
            let between = if at == 0 { "" } else { "," };
            let row = row.saturating_add(1);
            write!(&mut line, "{between} {row}")?;
        }
        self.lines.push(line)?;
        Ok(())
    }

    // A row has its result before its operation can have it.
    fn check_latency(&mut self, at: usize, row: &Row, bound: Bound) -> Result<(), AllocError> {
        let (Some(begin), Some(end)) = (row.first_of(Stage::Begin), row.first_of(Stage::Write))
        else {
            return Ok(());
        };
        let earliest = begin.saturating_add(bound.n);
        if end < earliest {
            let number = at.saturating_add(1);
            let n = bound.n;
            let line = format!(in self.alloc;
                "row {number} is written in cycle {end}: it takes {n} from cycle {begin} on, and the earliest is cycle {earliest}"
            )?;
            self.lines.push(line)?;
        }
        Ok(())
    }

    fn check_latencies(&mut self, bounds: &[Bound]) -> Result<(), AllocError> {
        for at in 0..self.sheet.rows.len() {
            let Some(row) = self.sheet.rows.as_slice().get(at).copied() else {
                break;
            };
            for bound in bounds {
                if operation(self.program, &row) == Some(bound.op) {
                    self.check_latency(at, &row, *bound)?;
                }
            }
        }
        Ok(())
    }

    // The row executes in a cycle: from its begin to the cycle before its result.
    fn executes(&self, row: &Row, op: Op, cycle: u64) -> bool {
        let Some(begin) = row.first_of(Stage::Begin) else {
            return false;
        };
        let end = match row.first_of(Stage::Write) {
            Some(write) => write.saturating_sub(1),
            None => row.last_of(Stage::Begin).unwrap_or(begin),
        };
        operation(self.program, row) == Some(op) && begin <= cycle && cycle <= end.max(begin)
    }

    // A cycle in which a row begins, and more execute than there are units.
    fn check_unit(&mut self, at: usize, row: &Row, bound: Bound) -> Result<(), AllocError> {
        let Some(cycle) = row.first_of(Stage::Begin) else {
            return Ok(());
        };
        let mut n = 0u64;
        for other in self.sheet.rows.iter() {
            if self.executes(other, bound.op, cycle) {
                n = n.saturating_add(1);
            }
        }
        if self.executes(row, bound.op, cycle) && n > bound.n {
            let (number, most) = (at.saturating_add(1), bound.n);
            let line = format!(in self.alloc;
                "row {number} begins in cycle {cycle}, in which {n} of its operation execute, and at most {most}"
            )?;
            self.lines.push(line)?;
        }
        Ok(())
    }

    fn check_units(&mut self, bounds: &[Bound]) -> Result<(), AllocError> {
        for at in 0..self.sheet.rows.len() {
            let Some(row) = self.sheet.rows.as_slice().get(at).copied() else {
                break;
            };
            for bound in bounds {
                self.check_unit(at, &row, *bound)?;
            }
        }
        Ok(())
    }
}

/// What of a table is more than a machine has, a line each.
pub(crate) fn exceeded(
    alloc: Global,
    program: &Program,
    sheet: &Sheet,
    limits: &Limits<'_>,
) -> Result<Vec<String>, AllocError> {
    let mut counting = Counting {
        alloc,
        program,
        sheet,
        lines: Vec::new(alloc),
    };
    counting.count(Sort::Let, limits.lets, "dispatches")?;
    counting.count(Sort::Begin, limits.begins, "begins of execution")?;
    counting.count(Sort::End, limits.results, "results")?;
    counting.count(Sort::Retire, limits.commits, "commits")?;
    counting.check_latencies(limits.latencies)?;
    counting.check_units(limits.units)?;
    Ok(counting.lines)
}
