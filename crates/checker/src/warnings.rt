//! Warnings of a listing without a fault.
ghost use Rattle.std.specs.Prelude.{◌≡◌, ◌<◌, length, IfOk, IfSome, OnOk, Some, slice_get, true};
ghost use Rattle.lexical.specs.Line.{lines_of};
ghost use Rattle.isa.specs.Listing.{instruction_lines};
ghost use Rattle.checker.specs.Parts.{IsPartOf};
ghost use Rattle.checker.specs.Reach.{HavePaths, IsStackUnset, may_run_past_end};
ghost use Rattle.checker.specs.Warnings.{AreOperandsOf, AreWarned, AreWarnedOf, Applies};
ghost use Rattle.checker.specs.Warnings.{IsKnown, IsOfInstruction, IsSpotOf, said};

mod labels;
mod operands;

use super::names::Names;
use super::parts::{Part, parts_of};
use super::reach::{Paths, ends_path, is_closed, reached, reads_stack};
use super::remedies::warned;
use super::spot::{Spot, push_advice};
use instructions::Program;
use labels::{Next, begin_with_data, is_data_after, push_labels};
use lexical::next_line;
use operands::operands_of;
use std::alloc::{AllocError, Global};

// The beginning of a warning.
const WARNING: &str = "warning: ";

// What is said, of each kind of warning.
const NEVER_USED: &str = "No instruction names this label.";

const AT_DATA: &str = "Data has no labels: this one means the next instruction.";

const STACK_UNSET: &str = "No instruction before this one sets $sp, which is 0 at the start.";

const UNREACHED: &str = "No path reaches this instruction.";

const PAST_END: &str = "A run can go on behind the last instruction: break ends it.";

/// The kinds of warnings.
#[derive(Clone, Copy)]
pub(crate) enum Warning {
    NeverUsed,
    AtData,
    StackUnset,
    Unreached,
    PastEnd,
}

impl Warning {
    fn said(self) -> &'static str
        ensures { result.now ≡ said self }
    {
        match self {
            Warning::NeverUsed => NEVER_USED,
            Warning::AtData => AT_DATA,
            Warning::StackUnset => STACK_UNSET,
            Warning::Unreached => UNREACHED,
            Warning::PastEnd => PAST_END,
        }
    }
}

/// A listing without a fault, its program with the line of each instruction, a flag for each instruction that is
/// reached, whether a run reaches no other one, and the first instruction that reads `$sp` where none has set it.
#[derive(Clone, Copy)]
pub(crate) struct Good<'a> {
    pub file: &'a [u8],
    pub bytes: &'a [u8],
    pub program: &'a Program,
    pub lines: &'a [u64],
    pub reached: &'a [bool],
    pub is_closed: bool,
    pub stack: Option<usize>,
}

// Whether a run can go on from instruction k past the last one.
fn may_run_past_end(program: &Program, k: usize) -> bool
    requires { k < length program.now.code }
    ensures { result ≡ may_run_past_end program.now k }
{
    let instr = program.instr(k);
    let end = Program::START + 4 * program.len() as u32;
    let goes_on = !ends_path(instr) && k + 1 == program.len();
    let jumps = instr.op.names_target() && instr.number == end;
    goes_on || jumps
}

/// Adds a warning of a part of a line, and before it what helps, if that is known.
pub(crate) fn push_warning(
    alloc: Global,
    text: &mut Vec<u8>,
    good: &Good<'_>,
    spot: Spot<'_>,
    part: Part,
    warning: Warning,
    help: &[u8],
) -> Result<(), AllocError>
    requires spot { IsSpotOf good.now spot }
    requires part { IsPartOf spot.line.now part }
    requires right { Applies good.now.bytes.now good.now.program.now spot.number spot.line.now part
        warning }
    ensures { OnOk result (AreWarnedOf good.now text.old.items text.new.items) }
{
    push_advice(alloc, text, spot, part, WARNING, help, warning.said())?;
    Ok(())
}

// The warning of instruction k, if there is one: where it is the first of some that no path reaches, or where a run can
// go on from it past the last one.
fn warning_at(good: &Good<'_>, k: usize) -> Option<Warning>
    requires inside { k < length good.now.program.now.code }
    requires known { IsKnown good.now }
    ensures { IfSome result (IsOfInstruction good.now.program.now k) }
{
    let is_first = k == 0 || good.reached[k - 1];
    if good.reached[k] {
        if may_run_past_end(good.program, k) {
            return Some(Warning::PastEnd);
        }
    } else if good.is_closed && is_first {
        return Some(Warning::Unreached);
    }
    None
}

// Whether instruction k is the first that reads `$sp` where none has set it.
fn is_stack_unset(good: &Good<'_>, k: usize) -> bool
    requires { IsKnown good.now }
    ensures { result ≡ true → IsStackUnset good.now.program.now k }
{
    match good.stack {
        Some(first) => first == k,
        None => false,
    }
}

// Whether instruction k stands on a line.
fn stands_on(lines: &[u64], k: usize, number: u64) -> bool
    ensures { result ≡ true → slice_get lines.now k ≡ Some number }
{
    match lines.get(k) {
        Some(line) => *line == number,
        None => false,
    }
}

// Warns of instruction k, if it stands on a line. The result is the number of the first instruction behind the line.
fn push_numbered(
    alloc: Global,
    text: &mut Vec<u8>,
    good: &Good<'_>,
    spot: Spot<'_>,
    k: usize,
) -> Result<usize, AllocError>
    requires spot { IsSpotOf good.now spot }
    requires known { IsKnown good.now }
    ensures { IfOk result (λ _. AreWarnedOf good.now text.old.items text.new.items) }
{
    if !stands_on(good.lines, k, spot.number) || k >= good.program.len() {
        return Ok(k);
    }
    let part = parts_of(spot.line).marked(isa::Spot::Whole);
    if is_stack_unset(good, k) {
        let help = warned::stack(alloc, good.bytes, good.program.size())?;
        push_warning(
            alloc,
            text,
            good,
            spot,
            part,
            Warning::StackUnset,
            help.as_slice(),
        )?;
    }
    if let Some(warning) = warning_at(good, k) {
        push_warning(alloc, text, good, spot, part, warning, b"")?;
    }
    Ok(k + 1)
}

// Warns of each line in turn.
fn push_lines(
    alloc: Global,
    text: &mut Vec<u8>,
    good: &Good<'_>,
    operands: &Names<'_>,
) -> Result<(), AllocError>
    requires operands { AreOperandsOf (lines_of good.now.bytes.now) operands.now }
    requires known { IsKnown good.now }
    ensures { OnOk result (AreWarnedOf good.now text.old.items text.new.items) }
{
    let file = good.file;
    let mut k = 0;
    let mut byte = 0u32;
    let mut is_data = begin_with_data(Some(good.bytes));
    let mut number = 0u64;
    let mut rest = Some(good.bytes);
    while let Some(bytes) = rest {
        let (line, after) = next_line(bytes);
        number += 1;
        let spot = Spot { file, number, line };
        let next = Next { k, byte, is_data };
        push_labels(alloc, text, good, operands, spot, next)?;
        k = push_numbered(alloc, text, good, spot, k)?;
        byte = byte.wrapping_add(warned::data_size(line));
        is_data = is_data_after(line, after, is_data);
        rest = after;
    }
    Ok(())
}

// The first instruction that reads `$sp` after a path on which no instruction sets it.
fn first_unset(program: &Program, unset: &[bool]) -> Option<usize>
    requires size { length unset.now ≡ length program.now.code }
    requires paths { HavePaths Paths.WithoutStack program.now unset.now }
    ensures { IfSome result (IsStackUnset program.now) }
{
    for k in 0..unset.len() {
        if unset[k] && reads_stack(program.instr(k)) {
            return Some(k);
        }
    }
    None
}

/// Adds the warnings of a listing, in the order of their lines: labels that no instruction names or that stand before data,
/// the first read of a stack pointer that is not set, instructions that no path reaches, and those from which a run can go
/// on past the last one.
pub(crate) fn push_warnings(
    alloc: Global,
    text: &mut Vec<u8>,
    file: &[u8],
    bytes: &[u8],
    program: &Program,
    lines: &[u64],
) -> Result<(), AllocError>
    requires { lines.now ≡ instruction_lines bytes.now }
    ensures { OnOk result (AreWarned file.now bytes.now program.now text.old.items text.new.items) }
{
    let operands = operands_of(alloc, bytes)?;
    let unset = reached(alloc, program, Paths::WithoutStack)?;
    let reached = reached(alloc, program, Paths::Any)?;
    let reached = reached.as_slice();
    let good = Good {
        file,
        bytes,
        program,
        lines,
        reached,
        is_closed: is_closed(program, reached),
        stack: first_unset(program, unset.as_slice()),
    };
    push_lines(alloc, text, &good, &operands)
}
