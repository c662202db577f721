//! The lines of the log.
ghost use Rattle.std.specs.Prelude.{◌≡◌, ◌++◌, OnOk, Some, codes, string_bytes};
ghost use Rattle.commit_log.specs.Words.{word_of as word_at};
ghost use Rattle.commit_log.specs.Lines.{commit_line, head, hash_line, limit_line, stop_line, text_part, word_column};

use crate::change::push_change;
use crate::fetched::Fetched;
use crate::hash::{HashText, hash_of};
use crate::word::{WordText, word_of};
use inorder::Machine;
use instructions::{Instr, Stop};
use isa::{Hexadecimal, InstrText};
use std::alloc::AllocError;
use std::fmt;

// The beginning of every line, at a pc.
#[derive(Clone, Copy)]
struct Head(u32);

impl fmt::Display for Head {
    ghost output = { λ line. Some (head line.0) };

    fn fmt<W: fmt::Write>(&self, f: &mut fmt::Formatter<W>) -> fmt::Result {
        let pc = Hexadecimal(self.0);
        write!(f, "core   0: 3 {pc} ")
    }
}

// Adds the beginning of the line of an instruction, with its word.
fn push_head(out: &mut String, pc: u32, instr: &Instr) -> Result<(), AllocError>
    ensures { OnOk result (string_bytes out.new ≡ string_bytes out.old
        ++ (head pc ++ (codes "(" ++ (word_column (word_at pc instr.now) ++ codes ")")))) }
{
    let head = Head(pc);
    let word = WordText(word_of(pc, instr));
    write!(out, "{head}({word})")
}

// Adds the text of an instruction, if it is wanted.
fn push_text(out: &mut String, wanted: bool, instr: &Instr) -> Result<(), AllocError>
    ensures { OnOk result
        (string_bytes out.new ≡ string_bytes out.old ++ text_part wanted instr.now) }
{
    if !wanted {
        return Ok(());
    }
    let text = InstrText::by_numbers(*instr);
    write!(out, " # {text}")
}

/// Adds the line of an instruction that was run, by the registers after it.
pub(crate) fn push_commit(
    out: &mut String,
    text: bool,
    fetched: &Fetched,
    registers: &[u32; 34],
) -> Result<(), AllocError>
    ensures { OnOk result (string_bytes out.new ≡ string_bytes out.old
        ++ commit_line text fetched.now.pc fetched.now.instr fetched.now.address registers.now) }
{
    push_head(out, fetched.pc, &fetched.instr)?;
    push_change(out, fetched, registers)?;
    push_text(out, text, &fetched.instr)?;
    out.push_str("\n")
}

/// Adds the line of a machine's hash.
pub(crate) fn push_hash(out: &mut String, machine: &Machine<'_>) -> Result<(), AllocError>
    ensures { OnOk result
        (string_bytes out.new ≡ string_bytes out.old ++ hash_line machine.now.state) }
{
    let head = Head(machine.pc());
    let count = machine.count();
    let hash = HashText(hash_of(machine.registers(), machine.memory()));
    write!(out, "{head}count {count} hash {hash}\n")
}

/// Adds the line of a stop, with the address of the access that was refused.
pub(crate) fn push_stop(
    out: &mut String,
    pc: u32,
    stop: Stop,
    address: u32,
) -> Result<(), AllocError>
    ensures { OnOk result
        (string_bytes out.new ≡ string_bytes out.old ++ stop_line pc stop address) }
{
    let head = Head(pc);
    match stop {
        Stop::Unaligned | Stop::OutOfRange => {
            let address = Hexadecimal(address);
            write!(out, "{head}stop {stop} {address}\n")
        }
        _ => write!(out, "{head}stop {stop}\n"),
    }
}

/// Adds the last line of a run that has reached its limit before the instruction at a pc.
pub(crate) fn push_limit(out: &mut String, pc: u32) -> Result<(), AllocError>
    ensures { OnOk result (string_bytes out.new ≡ string_bytes out.old ++ limit_line pc) }
{
    let head = Head(pc);
    write!(out, "{head}limit\n")
}
