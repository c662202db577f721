//! An instruction: an operation and its operands.
ghost use Rattle.std.specs.Prelude.{◌≡◌, None, Ok, Err, OnOk, IfErr};
ghost use Rattle.std.specs.Option.{option_map};
ghost use Rattle.lexical.specs.Operand.{operands_left};
ghost use Rattle.isa.specs.Statement.{draft_view, bare, fill, filled, instruction};

use super::fault::FaultKind;
use super::form::form_of;
use super::operand::{label, number, offset_and_register, signed_half};
use super::register::register;
use super::slot::Slot;
use instructions::{Instr, Op, Reg};
use lexical::{count_operands, next_operand};

/// An instruction whose label is not resolved yet.
#[derive(Clone, Copy)]
pub struct Draft<'a> {
    pub instr: Instr,
    pub label: Option<&'a [u8]>,
}

// The draft of an operation before its operands. `jal`, and `jalr` where it names none, write register 31; the
// moves from and to LO and HI read and write these.
fn bare(op: Op) -> Instr
    ensures { result ≡ bare op }
{
    let target = match op {
        Op::Jal | Op::Jalr => Reg::LINK,
        Op::Mtlo => Reg::LO,
        Op::Mthi => Reg::HI,
        _ => Reg::ZERO,
    };
    let first = match op {
        Op::Mflo => Reg::LO,
        Op::Mfhi => Reg::HI,
        _ => Reg::ZERO,
    };
    Instr {
        op,
        target,
        first,
        second: Reg::ZERO,
        number: 0,
    }
}

impl<'a> Draft<'a> {
    /// A draft that stands for no instruction yet: `instruction` fills it.
    pub fn new() -> Draft<'a>
        ensures { draft_view result ≡ record { instr = bare Op.Break; label = None } }
    {
        let instr = bare(Op::Break);
        Draft { instr, label: None }
    }
}

/// Puts an operand into a draft.
#[tactic(auto, unfolding(crate::specs::Statement::fill))]
pub fn fill<'a>(draft: &mut Draft<'a>, slot: Slot, text: &'a [u8]) -> Result<(), FaultKind>
    ensures ok { OnOk result
        (fill slot text.now (draft_view draft.old) ≡ Ok (draft_view draft.new)) }
    ensures err { IfErr result (λ e. fill slot text.now (draft_view draft.old) ≡ Err e) }
{
    match slot {
        Slot::Into => draft.instr.target = register(text)?,
        Slot::First => draft.instr.first = register(text)?,
        Slot::Second => draft.instr.second = register(text)?,
        Slot::S16 => draft.instr.number = signed_half(text)?,
        Slot::U16 => draft.instr.number = number(text, 0, 65535)?,
        Slot::U5 => draft.instr.number = number(text, 0, 31)?,
        Slot::Label => draft.label = Some(label(text)?),
        Slot::Offset => {
            let (number, base) = offset_and_register(text)?;
            draft.instr.number = number;
            draft.instr.first = base;
        }
    }
    Ok(())
}

// Fills a draft with operands, from the left.
fn fill_all<'a>(
    draft: &mut Draft<'a>,
    slots: &[Slot],
    part: Option<&'a [u8]>,
) -> Result<(), FaultKind>
    ensures ok { OnOk result
        (filled slots.now (operands_left (option_map (λ t. t.now) part.entry))
        (draft_view draft.old) ≡ Ok (draft_view draft.new)) }
    ensures err { IfErr result (λ e.
        filled slots.now (operands_left (option_map (λ t. t.now) part.entry))
        (draft_view draft.old) ≡ Err e) }
{
    let mut rest = part;
    for slot in slots {
        let text = rest.ok_or(FaultKind::BadOperands)?;
        let (operand, after) = next_operand(text);
        fill(draft, *slot, operand)?;
        rest = after;
    }
    Ok(())
}

/// Makes the draft the instruction of a word and an operand part.
#[tactic(auto, unfolding(crate::specs::Statement::instruction))]
pub fn instruction<'a>(
    draft: &mut Draft<'a>,
    word: &[u8],
    part: Option<&'a [u8]>,
) -> Result<(), FaultKind>
    ensures ok { OnOk result
        (instruction word.now (operands_left (option_map (λ t. t.now) part.entry))
        ≡ Ok (draft_view draft.new)) }
    ensures err { IfErr result (λ e.
        instruction word.now (operands_left (option_map (λ t. t.now) part.entry)) ≡ Err e) }
{
    let form = form_of(word, count_operands(part))?;
    draft.instr = bare(form.op);
    draft.label = None;
    fill_all(draft, form.operands.slots(), part)
}
