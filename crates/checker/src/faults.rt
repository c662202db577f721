//! The faults of a listing of which there are diagnostics.
ghost use Rattle.std.specs.Prelude.{◌≡◌, ◌++◌, ◌&&◌, is_none, Some, if◌then◌else◌, IfNone, IfOk, IfSome, OnOk, take, true, false};
ghost use Rattle.lexical.specs.Label.{labels_of};
ghost use Rattle.lexical.specs.Line.{lines_of};
ghost use Rattle.isa.specs.Listing.{Lines, all_labels, is_double};
ghost use Rattle.isa.specs.Spots.{double_spot};
ghost use Rattle.checker.specs.Keys.{AreNames};
ghost use Rattle.isa.specs.Statement.{statement as statement_read};
ghost use Rattle.checker.specs.Faults.{AreChosen, IsSeen, IsSmall, IsStep, Sight, all_faults, after_line, after_statement, faulty, most_faults};

use super::names::{Names, has_name, note};
use super::parts::parts_of;
use instructions::Program;
use isa::{FaultKind, LineFault, Marked, Spot, TextFault, statement_alone};
use lexical::{before_comment, is_plain_text, next_label, next_line};
use std::alloc::{AllocError, Global};
use std::collections::BTreeMap;

/// The most faults of a listing that are shown.
const MOST_FAULTS: usize = 200;

// What the lines so far have: their labels, and how many instructions and bytes of data those without a fault.
#[derive(Drop)]
struct Seen<'a> {
    names: Names<'a>,
    instructions: usize,
    bytes: usize,
}

// The number that was found first: one before n, or n if it is one.
fn or_this(found: Option<usize>, is_one: bool, n: usize) -> Option<usize>
    ensures { result ≡ (if is_none found && is_one then Some n else found) }
{
    if found.is_none() && is_one {
        Some(n)
    } else {
        found
    }
}

// Adds the labels of a line. The result is the number of the first one that stood before, if one did.
fn note_labels<'a>(names: &mut Names<'a>, code: &'a [u8]) -> Result<Option<usize>, AllocError>
    ensures names { OnOk result ((earlier : Lines) → AreNames names.old earlier
        → AreNames names.new (earlier ++ labels_of code.entry.now)) }
    ensures some { IfOk result (λ found. IfSome found (λ n. (earlier : Lines)
        → AreNames names.old earlier → (is_double earlier (labels_of code.entry.now) ≡ true)
        × (Spot.Label n ≡ double_spot 0 earlier (labels_of code.entry.now)))) }
    ensures none { IfOk result (λ found. IfNone found ((earlier : Lines)
        → AreNames names.old earlier → is_double earlier (labels_of code.entry.now) ≡ false)) }
{
    let mut double = None;
    let mut n = 0;
    let mut rest = code;
    while let Some((name, after)) = next_label(rest) {
        double = or_this(double, has_name(names, name), n);
        note(names, name)?;
        rest = after;
        n += 1;
    }
    Ok(double)
}

// A fault of a line, in a part of it.
fn faulty(kind: FaultKind, at: Spot) -> Option<LineFault>
    ensures { result ≡ faulty kind at }
{
    Some(LineFault { kind, at })
}

// The fault of a statement, after the lines before it; what it adds is counted, unless it has a fault of its own.
fn fault_of_statement(
    alloc: Global,
    all: &Names<'_>,
    seen: &mut Seen<'_>,
    text: &[u8],
) -> Result<Option<LineFault>, AllocError>
    requires { IsSmall seen.old }
    ensures small { OnOk result (IsSmall seen.new) }
    ensures step { IfOk result (λ fault. (a : Lines) (s : Sight) → AreNames all.now a
        → IsSeen seen.old s → IsStep fault seen.new
        (after_statement a s text.now (statement_read text.now))) }
{
    let added = match statement_alone(alloc, text) {
        Ok(added) => added,
        Err(fault) if fault.kind == FaultKind::Memory => return Err(AllocError),
        Err(fault) => return Ok(Some(fault)),
    };
    let is_full = added.instructions > Program::MOST_INSTRUCTIONS - seen.instructions;
    if is_full || added.bytes > Program::MOST_BYTES - seen.bytes {
        return Ok(faulty(FaultKind::TooLong, Spot::Whole));
    }
    seen.instructions += added.instructions;
    seen.bytes += added.bytes;
    match added.label {
        Some(name) if !has_name(all, name) => Ok(faulty(FaultKind::UnknownLabel, Spot::Target)),
        _ => Ok(None),
    }
}

// The fault of a line, after the lines before it, in a listing with all these labels.
fn fault_of_line<'a>(
    alloc: Global,
    all: &Names<'_>,
    seen: &mut Seen<'a>,
    line: &'a [u8],
) -> Result<Option<LineFault>, AllocError>
    requires { IsSmall seen.old }
    ensures small { OnOk result (IsSmall seen.new) }
    ensures step { IfOk result (λ fault. (a : Lines) (s : Sight) → AreNames all.now a
        → IsSeen seen.old s → IsStep fault seen.new (after_line a s line.entry.now)) }
{
    let parts = parts_of(line);
    let double = note_labels(&mut seen.names, parts.code)?;
    if !is_plain_text(parts.code) {
        return Ok(faulty(FaultKind::NotAscii, Spot::Whole));
    }
    if let Some(n) = double {
        return Ok(faulty(FaultKind::DoubleLabel, Spot::Label(n)));
    }
    fault_of_statement(alloc, all, seen, parts.statement)
}

// The labels of a listing.
fn labels_of(alloc: Global, bytes: &[u8]) -> Result<Names<'_>, AllocError>
    ensures { IfOk result (λ names. AreNames names (all_labels (lines_of bytes.now))) }
{
    let mut names = BTreeMap::new(alloc);
    let mut rest = Some(bytes);
    while let Some(text) = rest {
        let (line, after) = next_line(text);
        note_labels(&mut names, before_comment(line))?;
        rest = after;
    }
    Ok(names)
}

// The first fault of each line, in the order of the lines, and no more than are shown.
fn faults(alloc: Global, bytes: &[u8]) -> Result<Vec<Marked>, AllocError>
    ensures { IfOk result (λ found.
        found.items ≡ take most_faults (all_faults (lines_of bytes.now))) }
{
    let all = labels_of(alloc, bytes)?;
    let mut seen = Seen {
        names: BTreeMap::new(alloc),
        instructions: 0,
        bytes: 0,
    };
    let mut found = Vec::new(alloc);
    let mut number = 0u64;
    let mut rest = Some(bytes);
    while let Some(text) = rest {
        if found.len() == MOST_FAULTS {
            return Ok(found);
        }
        let (line, after) = next_line(text);
        number += 1;
        if let Some(LineFault { kind, at }) = fault_of_line(alloc, &all, &mut seen, line)? {
            let fault = TextFault { line: number, kind };
            found.push(Marked { fault, at })?;
        }
        rest = after;
    }
    Ok(found)
}

/// The fault of a listing, or where all are wanted the first one of each line, in the order of the lines.
pub(crate) fn chosen_faults(
    alloc: Global,
    bytes: &[u8],
    all: bool,
    marked: Marked,
) -> Result<Vec<Marked>, AllocError>
    ensures { IfOk result (λ chosen. AreChosen all bytes.now marked chosen.items) }
{
    if !all || marked.fault.line == 0 {
        return Ok([marked].to_vec(alloc)?);
    }
    faults(alloc, bytes)
}
