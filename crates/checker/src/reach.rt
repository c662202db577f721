//! The instructions that a run can reach.
ghost use Rattle.std.specs.Prelude.{◌≡◌, ◌+◌, ◌<◌, ℕ, IfOk, IfSome, OnOk, Some, length, slice_get, false, true};
ghost use Rattle.instructions.specs.Targets.{names_target};
ghost use Rattle.instructions.specs.Programs.{address, instr_of};
ghost use Rattle.checker.specs.Reach.{HasPath, HasSuccessors, HavePaths, HavePathsTo, IsClosedSet};
ghost use Rattle.checker.specs.Reach.{ends_path, is_always_taken, is_opaque, passes, reads_stack, sets_stack};

use instructions::{Instr, Op, Program, Reg};
use std::alloc::{AllocError, Global};

/// The number of `$sp`.
const STACK: u8 = 29;

/// The paths that are followed: any, or those on which no instruction sets `$sp`.
#[derive(Clone, Copy)]
pub(crate) enum Paths {
    Any,
    WithoutStack,
}

/// Whether an instruction reads `$sp`.
pub(crate) fn reads_stack(instr: &Instr) -> bool
    ensures { result ≡ reads_stack instr.now }
{
    instr.first.number() == STACK || instr.second.number() == STACK
}

// Whether an instruction sets `$sp`, and not from what it was.
fn sets_stack(instr: &Instr) -> bool
    ensures { result ≡ sets_stack instr.now }
{
    instr.target.number() == STACK && !reads_stack(instr)
}

// Whether paths lead on after an instruction.
fn passes(paths: Paths, instr: &Instr) -> bool
    ensures { result ≡ passes paths instr.now }
{
    match paths {
        Paths::Any => true,
        Paths::WithoutStack => !sets_stack(instr),
    }
}

// Whether an instruction is a branch that is taken whatever the registers hold.
fn is_always_taken(instr: &Instr) -> bool
    ensures { result ≡ is_always_taken instr.now }
{
    instr.op == Op::Beq && instr.first.number() == instr.second.number()
}

/// Whether an instruction never falls through to the next one.
pub(crate) fn ends_path(instr: &Instr) -> bool
    ensures { result ≡ ends_path instr.now }
{
    matches!(instr.op, Op::J | Op::Jr | Op::Break) || is_always_taken(instr)
}

// Whether an instruction hides where a run goes: by a jump to a register that is no return behind a `jal`, or by
// writing register 31 other than by `jal`.
fn is_opaque(instr: &Instr) -> bool
    ensures { result ≡ is_opaque instr.now }
{
    let is_other = instr.op == Op::Jr && instr.first.number() != Reg::LINK.number();
    let links = instr.op != Op::Jal && instr.target.number() == Reg::LINK.number();
    instr.op == Op::Jalr || is_other || links
}

// Whether the instruction at an address is reached, if there is one.
fn has(reached: &[bool], number: u32) -> bool
    ensures { result ≡ true → (j : ℕ) → j < length reached.now → number ≡ address j
        → slice_get reached.now j ≡ Some true }
{
    let offset = number.wrapping_sub(Program::START);
    let at = (offset / 4) as usize;
    offset % 4 != 0 || at >= reached.len() || reached[at]
}

// Whether the next instruction is reached, where instruction k can fall through to it.
fn has_next(program: &Program, reached: &[bool], k: usize) -> bool
    requires inside { k < length program.now.code }
    requires size { length reached.now ≡ length program.now.code }
    ensures { result ≡ true → ends_path (instr_of program.now k) ≡ false
        → k + 1 < length program.now.code → slice_get reached.now (k + 1) ≡ Some true }
{
    ends_path(program.instr(k)) || k + 1 >= reached.len() || reached[k + 1]
}

// Whether the target of instruction k is reached, if it names one.
fn has_target(program: &Program, reached: &[bool], k: usize) -> bool
    requires inside { k < length program.now.code }
    requires size { length reached.now ≡ length program.now.code }
    ensures { result ≡ true → names_target (instr_of program.now k).op ≡ true
        → (j : ℕ) → j < length program.now.code → (instr_of program.now k).number ≡ address j
        → slice_get reached.now j ≡ Some true }
{
    let instr = program.instr(k);
    !instr.op.names_target() || has(reached, instr.number)
}

// Whether all successors of instruction k are reached.
fn has_successors(program: &Program, reached: &[bool], k: usize) -> bool
    requires inside { k < length program.now.code }
    requires size { length reached.now ≡ length program.now.code }
    ensures { result ≡ true → HasSuccessors program.now reached.now k }
{
    let is_plain = !is_opaque(program.instr(k));
    let behind = has_next(program, reached, k);
    let target = has_target(program, reached, k);
    is_plain && behind && target
}

/// Whether the first instruction is reached, and with each one all its successors: then a run reaches no other one.
pub(crate) fn is_closed(program: &Program, reached: &[bool]) -> bool
    requires { length reached.now ≡ length program.now.code }
    ensures { result ≡ true → IsClosedSet program.now reached.now }
{
    for k in 0..reached.len() {
        if reached[k] && !has_successors(program, reached, k) {
            return false;
        }
    }
    reached.is_empty() || reached[0]
}

// Marks an instruction as reached, and puts it on the list of those whose successors are to be found.
fn reach(
    program: &Program,
    paths: Paths,
    reached: &mut Vec<bool>,
    next: &mut Vec<usize>,
    k: usize,
) -> Result<(), AllocError>
    requires size { length reached.old.items ≡ length program.now.code }
    requires path { k < length program.now.code → HasPath paths program.now k }
    requires marked { HavePaths paths program.now reached.old.items }
    requires listed { HavePathsTo paths program.now next.old.items }
    ensures size { length reached.new.items ≡ length reached.old.items }
    ensures marked { OnOk result (HavePaths paths program.now reached.new.items) }
    ensures listed { OnOk result (HavePathsTo paths program.now next.new.items) }
{
    if k < program.len() && !reached[k] {
        reached[k] = true;
        next.push(k)?;
    }
    Ok(())
}

// The number of the instruction at an address, if one can stand there.
fn index_of(number: u32) -> Option<usize>
    ensures { IfSome result (λ k. number ≡ address k) }
{
    let offset = number.checked_sub(Program::START)?;
    if offset % 4 == 0 {
        Some((offset / 4) as usize)
    } else {
        None
    }
}

// Marks the instructions to which instruction k leads, if there is one.
fn reach_successors(
    program: &Program,
    paths: Paths,
    reached: &mut Vec<bool>,
    next: &mut Vec<usize>,
    k: usize,
) -> Result<(), AllocError>
    requires size { length reached.old.items ≡ length program.now.code }
    requires path { HasPath paths program.now k }
    requires marked { HavePaths paths program.now reached.old.items }
    requires listed { HavePathsTo paths program.now next.old.items }
    ensures size { length reached.new.items ≡ length reached.old.items }
    ensures marked { OnOk result (HavePaths paths program.now reached.new.items) }
    ensures listed { OnOk result (HavePathsTo paths program.now next.new.items) }
{
    if k >= program.len() {
        return Ok(());
    }
    let instr = program.instr(k);
    if !passes(paths, instr) {
        return Ok(());
    }
    if !ends_path(instr) {
        reach(program, paths, reached, next, k + 1)?;
    }
    if instr.op.names_target() {
        if let Some(target) = index_of(instr.number) {
            reach(program, paths, reached, next, target)?;
        }
    }
    Ok(())
}

/// The instructions to which paths lead from the first one, by falling through and by labels alone: a flag for each
/// instruction.
pub(crate) fn reached(
    alloc: Global,
    program: &Program,
    paths: Paths,
) -> Result<Vec<bool>, AllocError>
    ensures size { IfOk result (λ reached. length reached.items ≡ length program.now.code) }
    ensures paths { IfOk result (λ reached. HavePaths paths program.now reached.items) }
{
    let mut reached = Vec::new(alloc);
    reached.resize(program.len(), false)?;
    let mut next = Vec::new(alloc);
    reach(program, paths, &mut reached, &mut next, 0)?;
    for _ in 0..program.len() {
        let Some(k) = next.pop() else {
            break;
        };
        reach_successors(program, paths, &mut reached, &mut next, k)?;
    }
    Ok(reached)
}
