//! Which instruction each row is: on the path that of the in-order machine, on a wrong path what follows the row before.
use crate::columns::Columns;
use crate::facts::Facts;
use crate::misread::{Flaw, Trouble};
use crate::naming::Named;
use crate::row::Row;
use crate::stage::Stage;
use inorder::{Ended, Machine};
use instructions::{Half, Instr, Program, pc_plus_4};
use std::alloc::Global;

// The in-order machine before the next row of the path, and the row before.
#[derive(Drop)]
struct Walk<'a> {
    program: &'a Program,
    machine: Machine<'a>,
    has_stopped: bool,
    before: Option<Row>,
}

// The pc after an instruction that needs no prediction.
fn fixed_after(instr: &Instr, pc: u32) -> Option<u32> {
    let half = if instr.op().is_pair() {
        Half::High
    } else {
        Half::Low
    };
    instr.fixed_next(half, pc)
}

impl Walk<'_> {
    // Where the path goes on after a branch that was not predicted right.
    fn other_side(&self, branch: &Instr, pc: u32, named: Named) -> Option<u32> {
        if !branch.op().is_branch() {
            return None;
        }
        let target = branch.number();
        let next = pc_plus_4(pc);
        let real = self.machine.pc();
        if real == target || (real != next && named.agrees(self.program, next)) {
            return Some(next);
        }
        Some(target)
    }

    // Where a row goes on that is not on the path.
    fn pc_after(&self, before: u32, named: Named) -> Option<u32> {
        let instr = self.program.fetch(before)?;
        match fixed_after(&instr, before) {
            Some(next) => Some(next),
            None => self.other_side(&instr, before, named),
        }
    }

    // The pc of a row, before it is known what the row says.
    fn pc_of(&self, is_squashed: bool, named: Named) -> Option<u32> {
        if !is_squashed && !self.has_stopped {
            return Some(self.machine.pc());
        }
        self.pc_after(self.before?.at?, named)
    }

    // The pc that a row names, where it is not that of its place.
    fn named_pc(&self, pc: Option<u32>, named: Named) -> Option<u32> {
        match (pc, named) {
            (Some(pc), named) if named.agrees(self.program, pc) => Some(pc),
            (_, named) => named.first_in(self.program),
        }
    }

    // A row that names no pc and no instruction is where the path goes on; one that names another on the path is judged as it says,
    // and the instruction of the path is dispatched all the same.
    fn placed(&self, row: &Row) -> Option<Row> {
        let pc = self.pc_of(row.is_squashed, row.named);
        let named = match (pc, row.named) {
            (None, Named::Nothing) => None,
            (pc, named) => Some(self.named_pc(pc, named)?),
        };
        let at = if row.is_squashed || pc.is_none() {
            named
        } else {
            pc
        };
        let facts = match at {
            Some(at) => self.facts_at(at),
            None => Facts::unknown(),
        };
        Some(Row {
            pc: named,
            at,
            facts,
            ..*row
        })
    }

    fn facts_at(&self, pc: u32) -> Facts {
        match self.program.fetch(pc) {
            Some(instr) => Facts::of(&instr),
            None => Facts::unknown(),
        }
    }

    // The next row.
    fn take(&mut self, row: &Row) -> Option<Row> {
        let found = self.placed(row)?;
        if !row.is_squashed && !self.has_stopped {
            let next = self.machine.count().saturating_add(1);
            match self.machine.run(next) {
                Ended::Stopped(_) => self.has_stopped = true,
                Ended::Limit => {}
            }
        }
        self.before = Some(found);
        Some(found)
    }

    // A row that does not commit, though a later one does, is on a wrong path.
    fn drops(&self, row: &Row) -> bool {
        row.cells.of(Stage::Retire).is_none()
            && self.may_be_wrong()
            && !self.goes_on_with(row.named)
    }

    // The row before is a branch, or on a wrong path.
    fn may_be_wrong(&self) -> bool {
        match self.before {
            Some(before) => before.is_squashed || before.facts.is_predicted,
            None => false,
        }
    }

    // The row names what the machine runs next.
    fn goes_on_with(&self, named: Named) -> bool {
        match named {
            Named::Nothing => false,
            named => named.agrees(self.program, self.machine.pc()),
        }
    }
}

// The number of rows up to the last one that commits.
fn committed_rows(rows: &[Row]) -> usize {
    let mut n = 0;
    for (at, row) in rows.iter().enumerate() {
        if row.cells.of(Stage::Retire).is_some() {
            n = at.saturating_add(1);
        }
    }
    n
}

fn memory<T, E: Drop>(found: Result<T, E>) -> Result<T, Trouble> {
    match found {
        Ok(found) => Ok(found),
        Err(_) => Err(Trouble::Memory),
    }
}

/// The rows of a table, each with its instruction and its position.
pub(crate) fn located(
    alloc: Global,
    program: &Program,
    columns: &Columns,
    rows: &[Row],
) -> Result<Vec<Row>, Trouble> {
    let committed = committed_rows(rows);
    let says_squashes = columns.has(Stage::Squash);
    let mut walk = Walk {
        program,
        machine: memory(Machine::new(alloc, program))?,
        has_stopped: false,
        before: None,
    };
    let mut placed = Vec::new(alloc);
    let mut position = 0usize;
    for (at, row) in rows.iter().enumerate() {
        let is_dropped = !says_squashes && at < committed && walk.drops(row);
        let is_squashed = row.cells.of(Stage::Squash).is_some() || is_dropped;
        let row = Row {
            position,
            is_squashed,
            ..*row
        };
        let Some(found) = walk.take(&row) else {
            return Err(Trouble::at(row.line, columns.instr_cell(), Flaw::NoInstruction));
        };
        position = position.saturating_add(found.facts.halves);
        placed.push(found)?;
    }
    Ok(placed)
}
