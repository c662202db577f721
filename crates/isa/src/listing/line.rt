//! One line after the lines before it.
ghost use Rattle.std.specs.Prelude.{◌≡◌, ◌≢◌, ◌+◌, ◌≤◌, ◌%◌, ◌∷◌, ◌++◌, [], ◌<◌, None, Some, ℕ, List, length, OnOk, IfOk, IfErr, IfSome};
ghost use Rattle.std.specs.Option.{option_map};
ghost use Rattle.lexical.specs.Line.{plain_code};
ghost use Rattle.isa.specs.Listing.{Lines, fault_in};
ghost use Rattle.isa.specs.Held.{IsRead, IsReadLine, IsFaultIn, IsFaultLine};

use super::fault::{FaultKind, LineFault};
use super::instruction::Draft;
use super::labels::{Labels, add_labels};
use super::statement::statement;
use instructions::{Instr, Program};
use lexical::next_code;

/// The target of an instruction, which is to be resolved: its label, if it has one, and the number of its line.
#[derive(Clone, Copy)]
pub struct Target<'a> {
    pub line: u64,
    pub label: Option<&'a [u8]>,
}

// Adds an instruction and its target.
fn add_instruction<'a>(
    code: &mut Vec<Instr>,
    targets: &mut Vec<Target<'a>>,
    draft: Draft<'a>,
    number: u32,
) -> Result<(), FaultKind>
    requires small_code { length code.old.items ≤ 16384 }
    ensures room { OnOk result (length code.old.items < 16384) }
    ensures small_code { OnOk result (length code.new.items ≤ 16384) }
    ensures ok { OnOk result (code.new.items ≡ code.old.items ++ draft.entry.instr ∷ []) }
    ensures target { OnOk result (targets.new.items
        ≡ targets.old.items ++ record { line = number; label = draft.entry.label } ∷ []) }
    ensures fault { IfErr result (λ e. e ≢ FaultKind.Memory
        → (e ≡ FaultKind.TooLong) × (16384 ≤ length code.old.items)) }
{
    if code.len() >= Program::MOST_INSTRUCTIONS {
        return Err(FaultKind::TooLong);
    }
    code.push(draft.instr)?;
    targets.push(Target {
        line: u64::from(number),
        label: draft.label,
    })?;
    Ok(())
}

// Reads the labels and the statement of the code of one line. There is no code where a byte may not stand before a
// comment.
fn read_line<'a>(
    labels: &mut Labels<'a>,
    code: &mut Vec<Instr>,
    targets: &mut Vec<Target<'a>>,
    memory: &mut Vec<u8>,
    source: Option<&'a [u8]>,
    number: u32,
) -> Result<(), LineFault>
    requires small_code { length code.old.items ≤ 16384 }
    requires small_memory { length memory.old.items ≤ 65536 }
    ensures small_code { OnOk result (length code.new.items ≤ 16384) }
    ensures small_memory { OnOk result (length memory.new.items ≤ 65536) }
    ensures aligned { OnOk result (length memory.old.items % 4 ≡ 0
        → length memory.new.items % 4 ≡ 0) }
    ensures ok { OnOk result ((before : Lines) (line : List ℕ)
        → option_map (λ t. t.now) source.entry ≡ plain_code line → length before + 1 ≡ number
        → IsRead before labels.old code.old.items targets.old.items memory.old.items
        → (fault_in before line ≡ None) × IsRead (before ++ line ∷ []) labels.new code.new.items
        targets.new.items memory.new.items) }
    ensures fault { IfErr result (λ e. e.kind ≢ FaultKind.Memory → (before : Lines) (line : List ℕ)
        → option_map (λ t. t.now) source.entry ≡ plain_code line
        → IsRead before labels.old code.old.items targets.old.items memory.old.items
        → IsFaultIn before line e) }
{
    let Some(text) = source else {
        return Err(LineFault::from(FaultKind::NotAscii));
    };
    let index = code.len();
    let rest = add_labels(labels, text, Program::START + 4 * index as u32)?;
    let mut draft = Draft::new();
    let found = statement(memory, &mut draft, rest)?;
    if memory.len() > Program::MOST_BYTES {
        return Err(LineFault::from(FaultKind::TooLong));
    }
    if !found {
        return Ok(());
    }
    add_instruction(code, targets, draft, number)?;
    Ok(())
}

/// Reads the first line of a text. The result is the text after its line feed, if it has one.
pub fn read_first_line<'a>(
    labels: &mut Labels<'a>,
    code: &mut Vec<Instr>,
    targets: &mut Vec<Target<'a>>,
    memory: &mut Vec<u8>,
    text: &'a [u8],
    number: u32,
) -> Result<Option<&'a [u8]>, LineFault>
    requires small_code { length code.old.items ≤ 16384 }
    requires small_memory { length memory.old.items ≤ 65536 }
    ensures small_code { OnOk result (length code.new.items ≤ 16384) }
    ensures small_memory { OnOk result (length memory.new.items ≤ 65536) }
    ensures aligned { OnOk result (length memory.old.items % 4 ≡ 0
        → length memory.new.items % 4 ≡ 0) }
    ensures shorter { IfOk result (λ rest. IfSome rest
        (λ r. length r.now < length text.entry.now)) }
    ensures ok { IfOk result (λ rest. (before : Lines) → length before + 1 ≡ number
        → IsRead before labels.old code.old.items targets.old.items memory.old.items
        → IsReadLine before text.entry.now (option_map (λ r. r.now) rest) labels.new
        code.new.items targets.new.items memory.new.items) }
    ensures fault { IfErr result (λ e. e.kind ≢ FaultKind.Memory → (before : Lines)
        → IsRead before labels.old code.old.items targets.old.items memory.old.items
        → IsFaultLine before text.entry.now e) }
{
    let (source, after) = next_code(text);
    read_line(labels, code, targets, memory, source, number)?;
    Ok(after)
}
