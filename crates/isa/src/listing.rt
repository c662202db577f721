//! The listing language: from bytes to a program, or to the first fault.
ghost use Rattle.std.specs.Prelude.{◌≡◌, ◌≢◌, ◌≤◌, ◌%◌, ℕ, List, [], map, Option, Some, None, Ok, Err, length, OnOk, IfOk, IfErr};
ghost use Rattle.lexical.specs.Line.{lines_of};
ghost use Rattle.isa.specs.Listing.{instruction_lines, resolve_number, resolved, first_fault, listing};
ghost use Rattle.isa.specs.Labels.{AreHeld};
ghost use Rattle.isa.specs.Held.{name_of, rows, IsRead};
ghost use Rattle.isa.specs.Spots.{spot_of, spot_of_line};

mod directive;
mod fault;
mod form;
mod instr_text;
mod instruction;
mod labels;
mod law;
mod line;
mod operand;
mod register;
mod slot;
mod spot;
mod statement;

pub use directive::directive_text;
use fault::fault_at;
pub use fault::{FaultKind, LineFault, Marked, TextFault};
pub use form::{Form, form_of, forms};
pub use instr_text::{InstrText, Label, RegisterStyle, text_is_read_back};
use instructions::{Instr, Program};
use labels::{Labels, address_of};
pub use law::the_first_fault_is_named;
use line::{Target, read_first_line};
pub use register::register as register_in;
pub use slot::{Operands, Slot};
pub use spot::Spot;
pub use statement::{Added, statement_alone};
use std::alloc::Global;

// The most bytes of a listing.
const MOST_TEXT: usize = 4_194_304;

// The number of an instruction: the address of its label, where it has one.
fn resolve<'a>(labels: &Labels<'a>, target: &Target<'a>, number: u32) -> Result<u32, Marked>
    ensures ok { IfOk result (λ a. (held : List (List ℕ × ℕ)) → AreHeld labels.now held
        → resolve_number held target.now.line number (name_of target.now) ≡ Ok a) }
    ensures fault { IfErr result (λ f. (f.fault.kind ≢ FaultKind.Memory)
        × ((held : List (List ℕ × ℕ)) → AreHeld labels.now held
        → resolve_number held target.now.line number (name_of target.now)
        ≡ Err (f.fault.line, f.fault.kind))) }
    ensures at { IfErr result (λ f. f.at ≡ Spot.Target) }
{
    let Some(name) = target.label else {
        return Ok(number);
    };
    match address_of(labels, name) {
        Some(address) => Ok(address),
        None => Err(Marked {
            fault: TextFault {
                line: target.line,
                kind: FaultKind::UnknownLabel,
            },
            at: Spot::Target,
        }),
    }
}

// Gives each instruction the address of its label.
fn resolve_all<'a>(
    labels: &Labels<'a>,
    code: &mut [Instr],
    targets: &[Target<'a>],
) -> Result<(), Marked>
    requires same_length { length code.old ≡ length targets.now }
    ensures length { length code.new ≡ length code.old }
    ensures ok { OnOk result ((held : List (List ℕ × ℕ)) → AreHeld labels.now held
        → resolved held (rows code.old targets.now) ≡ Ok code.new) }
    ensures fault { IfErr result (λ f. (f.fault.kind ≢ FaultKind.Memory)
        × ((held : List (List ℕ × ℕ)) → AreHeld labels.now held
        → resolved held (rows code.old targets.now) ≡ Err (f.fault.line, f.fault.kind))) }
    ensures at { IfErr result (λ f. f.at ≡ Spot.Target) }
{
    for i in 0..targets.len() {
        code[i].number = resolve(labels, &targets[i], code[i].number)?;
    }
    Ok(())
}

// Reads all lines.
fn read_lines<'a>(
    labels: &mut Labels<'a>,
    code: &mut Vec<Instr>,
    targets: &mut Vec<Target<'a>>,
    memory: &mut Vec<u8>,
    bytes: &'a [u8],
) -> Result<(), Marked>
    requires short { length bytes.now ≤ 4194304 }
    requires nothing { IsRead [] labels.old code.old.items targets.old.items memory.old.items }
    ensures small_code { OnOk result (length code.new.items ≤ 16384) }
    ensures small_memory { OnOk result (length memory.new.items ≤ 65536) }
    ensures aligned { OnOk result (length memory.new.items % 4 ≡ 0) }
    ensures ok { OnOk result ((first_fault (lines_of bytes.entry.now) ≡ None)
        × IsRead (lines_of bytes.entry.now) labels.new code.new.items targets.new.items
        memory.new.items) }
    ensures fault { IfErr result (λ f. f.fault.kind ≢ FaultKind.Memory
        → first_fault (lines_of bytes.entry.now) ≡ Some (f.fault.line, f.fault.kind)) }
    ensures at { IfErr result (λ f. f.fault.kind ≢ FaultKind.Memory
        → f.at ≡ spot_of_line (lines_of bytes.entry.now) f.fault.line) }
    ensures memory { IfErr result (λ f. f.fault.kind ≡ FaultKind.Memory → f.fault.line ≡ 0) }
{
    let mut number = 0u32;
    let mut rest = Some(bytes);
    while let Some(text) = rest {
        number += 1;
        match read_first_line(labels, code, targets, memory, text, number) {
            Ok(after) => rest = after,
            Err(found) => {
                let fault = fault_at(u64::from(number), found.kind);
                return Err(Marked {
                    fault,
                    at: found.at,
                });
            },
        }
    }
    Ok(())
}

// The program of a listing with the targets of its instructions, or its first fault.
fn read_all(alloc: Global, bytes: &[u8]) -> Result<(Program, Vec<Target<'_>>), Marked>
    ensures ok { IfOk result (λ found. listing bytes.entry.now ≡ Ok found.0) }
    ensures lines { IfOk result (λ found.
        map (λ t. t.line) found.1.items ≡ instruction_lines bytes.entry.now) }
    ensures fault { IfErr result (λ f. f.fault.kind ≢ FaultKind.Memory
        → listing bytes.entry.now ≡ Err (f.fault.line, f.fault.kind)) }
    ensures at { IfErr result (λ f. f.fault.kind ≢ FaultKind.Memory
        → f.at ≡ spot_of bytes.entry.now) }
    ensures memory { IfErr result (λ f. f.fault.kind ≡ FaultKind.Memory → f.fault.line ≡ 0) }
{
    if bytes.len() > MOST_TEXT {
        return Err(Marked {
            fault: fault_at(0, FaultKind::TooLong),
            at: Spot::Whole,
        });
    }
    let mut labels = Labels::new(alloc);
    let mut code = Vec::new(alloc);
    let mut targets = Vec::new(alloc);
    let mut memory = Vec::new(alloc);
    read_lines(&mut labels, &mut code, &mut targets, &mut memory, bytes)?;
    resolve_all(&labels, code.as_mut_slice(), targets.as_slice())?;
    Ok((Program::new(code, memory), targets))
}

/// The program of a listing, or its first fault. A fault of a line has its number, counted from 1;
/// a listing of more than 4,194,304 bytes and want of memory have line 0.
pub fn parse(alloc: Global, bytes: &[u8]) -> Result<Program, TextFault>
    ensures ok { IfOk result (λ program. listing bytes.now ≡ Ok program) }
    ensures fault { IfErr result (λ f. f.kind ≢ FaultKind.Memory
        → listing bytes.now ≡ Err (f.line, f.kind)) }
    ensures memory { IfErr result (λ f. f.kind ≡ FaultKind.Memory → f.line ≡ 0) }
{
    let (program, _) = read_all(alloc, bytes)?;
    Ok(program)
}

/// The result of `parse`, and for each instruction the number of its line, counted from 1; or with
/// the fault the part of its line that is at fault.
pub fn parse_marked(alloc: Global, bytes: &[u8]) -> Result<(Program, Vec<u64>), Marked>
    ensures ok { IfOk result (λ found. listing bytes.now ≡ Ok found.0) }
    ensures lines { IfOk result (λ found. found.1.items ≡ instruction_lines bytes.now) }
    ensures fault { IfErr result (λ f. f.fault.kind ≢ FaultKind.Memory
        → listing bytes.now ≡ Err (f.fault.line, f.fault.kind)) }
    ensures at { IfErr result (λ f. f.fault.kind ≢ FaultKind.Memory → f.at ≡ spot_of bytes.now) }
    ensures memory { IfErr result (λ f. f.fault.kind ≡ FaultKind.Memory → f.fault.line ≡ 0) }
{
    let (program, targets) = read_all(alloc, bytes)?;
    let lines = targets.iter().map(|target| target.line).collect(alloc)?;
    Ok((program, lines))
}

/// The result of `parse_marked` without the part that is at fault.
pub fn parse_with_lines(alloc: Global, bytes: &[u8]) -> Result<(Program, Vec<u64>), TextFault>
    ensures ok { IfOk result (λ found. listing bytes.now ≡ Ok found.0) }
    ensures lines { IfOk result (λ found. found.1.items ≡ instruction_lines bytes.now) }
    ensures fault { IfErr result (λ f. f.kind ≢ FaultKind.Memory
        → listing bytes.now ≡ Err (f.line, f.kind)) }
    ensures memory { IfErr result (λ f. f.kind ≡ FaultKind.Memory → f.line ≡ 0) }
{
    Ok(parse_marked(alloc, bytes)?)
}
