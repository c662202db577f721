//! A statement: a word and its operands.
ghost use Rattle.std.specs.Prelude.{◌≡◌, ◌≢◌, ◌≤◌, ◌%◌, ◌++◌, Ok, Err, length, replicate, OnOk, IfOk, IfErr};
ghost use Rattle.std.specs.Option.{option_map};
ghost use Rattle.lexical.specs.Operand.{operands_left};
ghost use Rattle.isa.specs.Statement.{Line, draft_view, code_if, with_operands, statement};
ghost use Rattle.isa.specs.Held.{IsAdded, IsSizeOf};
ghost use Rattle.isa.specs.Spots.{statement_spot};

use super::directive::{add_words, space};
use super::fault::{FaultKind, LineFault};
use super::form::same_word;
use super::instruction::{Draft, instruction};
use super::spot::spot_with;
use lexical::{cut_word, operand_part};
use std::alloc::Global;

// Adds the bytes of `.space`.
fn add_space(memory: &mut Vec<u8>, n: u32) -> Result<(), FaultKind>
    requires small { length memory.old.items ≤ 65536 }
    ensures ok { OnOk result (memory.new.items ≡ memory.old.items ++ replicate n 0) }
    ensures memory { IfErr result (λ e. e ≡ FaultKind.Memory) }
{
    let size = memory.len() + n as usize;
    memory.resize(size, 0)?;
    Ok(())
}

// Reads a directive or an instruction, by its word.
fn with_operands<'a>(
    memory: &mut Vec<u8>,
    draft: &mut Draft<'a>,
    word: &[u8],
    part: Option<&'a [u8]>,
) -> Result<bool, FaultKind>
    requires small { length memory.old.items ≤ 65536 }
    ensures ok { IfOk result (λ found. IsAdded
        (with_operands word.now (operands_left (option_map (λ t. t.now) part.entry)))
        (code_if found (draft_view draft.new)) memory.old.items memory.new.items) }
    ensures aligned { OnOk result (length memory.old.items % 4 ≡ 0
        → length memory.new.items % 4 ≡ 0) }
    ensures fault { IfErr result (λ e. e ≢ FaultKind.Memory
        → with_operands word.now (operands_left (option_map (λ t. t.now) part.entry)) ≡ Err e) }
{
    if same_word(b".space", word) {
        let n = space(part)?;
        add_space(memory, n)?;
        return Ok(false);
    }
    if same_word(b".word", word) {
        add_words(memory, part)?;
        return Ok(false);
    }
    instruction(draft, word, part)?;
    Ok(true)
}

/// Reads a statement. The bytes of a directive are added to the memory. Where the statement is an
/// instruction, the result is true, and the draft is that instruction.
pub fn statement<'a>(
    memory: &mut Vec<u8>,
    draft: &mut Draft<'a>,
    text: &'a [u8],
) -> Result<bool, LineFault>
    requires small { length memory.old.items ≤ 65536 }
    ensures ok { IfOk result (λ found. IsAdded (statement text.now)
        (code_if found (draft_view draft.new)) memory.old.items memory.new.items) }
    ensures aligned { OnOk result (length memory.old.items % 4 ≡ 0
        → length memory.new.items % 4 ≡ 0) }
    ensures fault { IfErr result (λ e. e.kind ≢ FaultKind.Memory
        → (statement text.now ≡ Err e.kind) × (e.at ≡ statement_spot text.now)) }
{
    if text.is_empty() {
        return Ok(false);
    }
    let (word, rest) = cut_word(text);
    let part = operand_part(rest);
    match with_operands(memory, draft, word, part) {
        Ok(found) => Ok(found),
        Err(kind) => {
            let at = spot_with(word, part);
            Err(LineFault { kind, at })
        },
    }
}

/// What a statement adds to a program: instructions, bytes of data, and the label that it names.
#[derive(Clone, Copy)]
pub struct Added<'a> {
    pub instructions: usize,
    pub bytes: usize,
    pub label: Option<&'a [u8]>,
}

/// What a statement adds to a program by itself, or its fault.
pub fn statement_alone(alloc: Global, text: &[u8]) -> Result<Added<'_>, LineFault>
    ensures ok { IfOk result (λ added. (line : Line) × ((statement text.entry.now ≡ Ok line)
        × IsSizeOf line added)) }
    ensures fault { IfErr result (λ e. e.kind ≢ FaultKind.Memory
        → (statement text.entry.now ≡ Err e.kind) × (e.at ≡ statement_spot text.entry.now)) }
{
    let mut memory = Vec::new(alloc);
    let mut draft = Draft::new();
    let found = statement(&mut memory, &mut draft, text)?;
    let bytes = memory.len();
    if found {
        Ok(Added {
            instructions: 1,
            bytes,
            label: draft.label,
        })
    } else {
        Ok(Added {
            instructions: 0,
            bytes,
            label: None,
        })
    }
}
