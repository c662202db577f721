//! The operands of a listing as a set.
ghost use Rattle.std.specs.Prelude.{◌≡◌, ◌||◌, ℕ, List, IfOk, OnOk};
ghost use Rattle.lexical.specs.Line.{lines_of};
ghost use Rattle.isa.specs.Listing.{stands_in};
ghost use Rattle.checker.specs.Keys.{has_key};
ghost use Rattle.checker.specs.Parts.{operands_of_line};
ghost use Rattle.checker.specs.Warnings.{AreOperandsOf};

use super::super::names::{Names, note};
use super::super::parts::parts_of;
use lexical::{next_line, next_operand};
use std::alloc::{AllocError, Global};
use std::collections::BTreeMap;

// Adds the operands of a line to the set.
fn note_line<'a>(operands: &mut Names<'a>, line: &'a [u8]) -> Result<(), AllocError>
    ensures { OnOk result ((name : List ℕ) → has_key operands.new name
        ≡ (has_key operands.old name || stands_in (operands_of_line line.now) name)) }
{
    let mut rest = parts_of(line).operands;
    while let Some(text) = rest {
        let (operand, after) = next_operand(text);
        note(operands, operand)?;
        rest = after;
    }
    Ok(())
}

/// The set of the operands of a listing.
pub(crate) fn operands_of(alloc: Global, bytes: &[u8]) -> Result<Names<'_>, AllocError>
    ensures { IfOk result (AreOperandsOf (lines_of bytes.now)) }
{
    let mut operands = BTreeMap::new(alloc);
    let mut rest = Some(bytes);
    while let Some(text) = rest {
        let (line, after) = next_line(text);
        note_line(&mut operands, line)?;
        rest = after;
    }
    Ok(operands)
}
