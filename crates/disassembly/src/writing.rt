//! The text of a listing.
ghost use Rattle.std.specs.Prelude.{◌≡◌, ℕ, ◌<◌, ◌≤◌, ◌++◌, Ok, false, OnOk, IfOk, IfSome, IsNone, true, length, string_bytes};
ghost use Rattle.std.specs.List.{list_all};
ghost use Rattle.instructions.specs.Programs.{address};
ghost use Rattle.isa.specs.Listing.{listing};
ghost use Rattle.instructions.specs.Targets.{names_target};
ghost use Rattle.disassembly.specs.Meaning.{is_inside};
ghost use Rattle.disassembly.specs.Writing.{IsQuieter, IsLabelled, AllSound, AllMarked, as_line, unlines, label_lines, gap_lines, comment_line, printable};

use crate::data::push_data;
use crate::lines::{push_label, push_line};
use elf::{Function, name_at};
use instructions::{Instr, Program};
use std::alloc::{AllocError, Global};
use std::str;

// The number of the instruction at an address, among n.
fn index_of(len: usize, at: u32) -> Option<usize>
    requires { len ≤ 16384 }
    ensures inside { IfSome result (λ k. k < len) }
    ensures is { IfSome result (λ k. at ≡ address k) }
    ensures none { IsNone result → is_inside len at ≡ false }
{
    let index = (at.saturating_sub(Program::START) / 4) as usize;
    if Program::START <= at && at % 4 == 0 && index < len {
        Some(index)
    } else {
        None
    }
}

// Marks the target of an instruction.
#[tactic(auto, using(crate::proofs::Marks::mark_kept, crate::proofs::Marks::mark_new))]
fn mark(marks: &mut Vec<bool>, instr: &Instr)
    requires { length marks.old.items ≤ 16384 }
    ensures length { length marks.new.items ≡ length marks.old.items }
    ensures kept { (target : ℕ) → IsLabelled marks.old.items target
        → IsLabelled marks.new.items target }
    ensures new { names_target instr.now.op ≡ true
        → is_inside (length marks.old.items) instr.now.number ≡ true
        → IsLabelled marks.new.items instr.now.number }
{
    if !instr.op().names_target() {
        return;
    }
    if let Some(k) = index_of(marks.len(), instr.number()) {
        marks[k] = true;
    }
}

// The instructions that are targets of others, as a flag for each one.
#[tactic(auto, using(crate::proofs::Marks::marks_more, crate::proofs::Marks::marks_all))]
fn labels(alloc: Global, code: &[Instr]) -> Result<Vec<bool>, AllocError>
    requires { length code.now ≤ 16384 }
    ensures length { IfOk result (λ v. length v.items ≡ length code.now) }
    ensures marked { IfOk result (λ v. AllMarked v.items (length code.now) code.now) }
{
    let mut marks = Vec::new(alloc);
    marks.resize(code.len(), false)?;
    'instructions: for instr in code {
        mark(&mut marks, instr);
    }
    Ok(marks)
}

// The place in the file of the name of the function that begins with each instruction, if one does.
fn names(
    alloc: Global,
    functions: &[Function],
    len: usize,
) -> Result<Vec<Option<usize>>, AllocError>
    requires { len ≤ 16384 }
    ensures { IfOk result (λ v. length v.items ≡ len) }
{
    let mut names = Vec::new(alloc);
    names.resize(len, None)?;
    for function in functions {
        if let Some(k) = index_of(len, function.address) {
            names[k] = Some(function.name);
        }
    }
    Ok(names)
}

// Adds an empty line before a comment, unless the comment is the first line.
fn push_gap(out: &mut String, k: usize) -> Result<(), AllocError>
    ensures { OnOk result (string_bytes out.new ≡ string_bytes out.old ++ unlines (gap_lines k)) }
{
    if k == 0 {
        return Ok(());
    }
    out.push_str("\n")
}

// Adds the line of a comment.
fn push_text(out: &mut String, text: &str) -> Result<(), AllocError>
    ensures { OnOk result (string_bytes out.new
        ≡ string_bytes out.old ++ as_line (comment_line text.now)) }
{
    write!(out, "# {text}\n")
}

// Adds the comment that names a function.
#[tactic(auto, using(crate::proofs::Names::quieter_name, crate::proofs::Names::quieter_none))]
fn push_name(out: &mut String, name: &[u8], k: usize) -> Result<(), AllocError>
    requires short { length name.now ≤ 60 }
    requires plain { list_all printable name.now ≡ true }
    ensures { OnOk result (IsQuieter 110 (string_bytes out.old) (string_bytes out.new)) }
{
    let Ok(text) = str::from_utf8(name) else {
        return Ok(());
    };
    push_gap(out, k)?;
    push_text(out, text)
}

// Adds the comment that names the function of an instruction, if there is one.
#[tactic(auto, using(crate::proofs::Names::quieter_none, crate::proofs::Names::name_short, crate::proofs::Names::name_plain))]
fn push_comment(
    out: &mut String,
    file: &[u8],
    name: Option<usize>,
    k: usize,
) -> Result<(), AllocError>
    ensures { OnOk result (IsQuieter 110 (string_bytes out.old) (string_bytes out.new)) }
{
    match name {
        Some(at) => push_name(out, name_at(file, at), k),
        None => Ok(()),
    }
}

// Adds the label of instruction k, if it has one.
fn push_mark(out: &mut String, k: usize, mark: bool) -> Result<(), AllocError>
    requires { k ≤ 16384 }
    ensures { OnOk result (string_bytes out.new
        ≡ string_bytes out.old ++ unlines (label_lines k mark)) }
{
    if mark {
        push_label(out, k)?;
    }
    Ok(())
}

/// The listing of instructions that a listing can write, and of bytes of data.
#[tactic(auto, using(crate::proofs::Said::text_begun, crate::proofs::Blocks::block_more, crate::proofs::Said::text_ended))]
pub fn text_of(
    alloc: Global,
    file: &[u8],
    functions: &[Function],
    code: &[Instr],
    bytes: &[u8],
) -> Result<String, AllocError>
    requires few { length code.now ≤ 16384 }
    requires sound { AllSound (length code.now) code.now }
    requires data { length bytes.now ≡ 65536 }
    ensures { IfOk result (λ text. listing (string_bytes text)
        ≡ Ok (record { code = code.now; bytes = bytes.now })) }
{
    let marks = labels(alloc, code)?;
    let names = names(alloc, functions, code.len())?;
    let mut out = String::new(alloc);
    'instructions: for k in 0..code.len() {
        push_comment(&mut out, file, names[k], k)?;
        push_mark(&mut out, k, marks[k])?;
        push_line(&mut out, &code[k])?;
    }
    out.push_str("\n# data\n")?;
    push_data(&mut out, bytes)?;
    Ok(out)
}
