//! Whole runs.
ghost use Rattle.std.specs.Prelude.{IfOk};
ghost use Rattle.own_model.specs.Runs.{IsInOrderEnd};

use crate::station::LoadAhead;
use inorder::one_thread_unit_is_right;
use instructions::{End, Ending, Memory, Program};
use std::alloc::Global;

/// Runs a program in the unit, for at most `limit` instructions. Memory is wanting only where the
/// data memory of the program can't be had.
pub fn run(alloc: Global, program: &Program, limit: u64) -> Result<End, Memory>
    ensures { IfOk result (IsInOrderEnd program.now limit) }
{
    one_thread_unit_is_right();
    let mut unit = LoadAhead::new(alloc, program)?;
    while unit.state.committed.count() < limit {
        unit.look_ahead(limit);
        if let Err(code) = unit.step() {
            return Ok(unit.state.committed.into_end(Ending::Stop(code)));
        }
    }
    Ok(unit.state.committed.into_end(Ending::Limit))
}
