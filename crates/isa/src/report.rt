//! The report of a run as text.
ghost use Rattle.std.specs.Prelude.{◌≡◌, ◌++◌, Some, OnOk, IfOk, length, string_bytes};
ghost use Rattle.isa.specs.Report.{report_of, fault_line, hexadecimal, register_name, register_lines, memory_lines, word_line};

use crate::TextFault;
use instructions::End;
use std::alloc::{AllocError, Global};
use std::fmt;

/// A word as `0x` and eight hexadecimal digits.
#[derive(Clone, Copy)]
pub struct Hexadecimal(pub u32);

impl fmt::Display for Hexadecimal {
    ghost output = { λ word. Some (hexadecimal word.0) };

    fn fmt<W: fmt::Write>(&self, f: &mut fmt::Formatter<W>) -> fmt::Result {
        let word = self.0;
        write!(f, "0x{word:08x}")
    }
}

/// The name of a register in a report, by its number.
#[derive(Clone, Copy)]
pub struct RegisterName(pub usize);

impl fmt::Display for RegisterName {
    ghost output = { λ name. Some (register_name name.0) };

    fn fmt<W: fmt::Write>(&self, f: &mut fmt::Formatter<W>) -> fmt::Result {
        match self.0 {
            32 => f.write_str("lo"),
            33 => f.write_str("hi"),
            number => write!(f, "r{number}"),
        }
    }
}

// Adds the lines of the registers that are not 0.
fn push_registers(out: &mut String, registers: &[u32; 34]) -> Result<(), AllocError>
    ensures { OnOk result (string_bytes out.new
        ≡ string_bytes out.old ++ register_lines 0 registers.now) }
{
    for (r, value) in registers.iter().enumerate() {
        if *value != 0 {
            let name = RegisterName(r);
            let value = Hexadecimal(*value);
            write!(out, "{name} {value}\n")?;
        }
    }
    Ok(())
}

// Adds the line of one word of four bytes, if it is not 0.
#[tactic(auto, using(crate::proofs::HexDigits::hex8_word))]
fn push_word(out: &mut String, address: usize, word: &[u8]) -> Result<(), AllocError>
    requires { length word.now ≡ 4 }
    ensures { OnOk result (string_bytes out.new
        ≡ string_bytes out.old ++ word_line address word.now) }
{
    let value = u32::from_le_bytes([word[0], word[1], word[2], word[3]]);
    if value != 0 {
        let address = Hexadecimal((address % 0x1_0000_0000) as u32);
        let value = Hexadecimal(value);
        write!(out, "m {address} {value}\n")?;
    }
    Ok(())
}

// Adds the lines of the words of memory that are not 0.
#[tactic(auto, using(crate::proofs::WordLines::memory_step, crate::proofs::WordLines::memory_end))]
fn push_memory(out: &mut String, memory: &[u8]) -> Result<(), AllocError>
    ensures { OnOk result (string_bytes out.new
        ≡ string_bytes out.old ++ memory_lines 0 memory.now) }
{
    let mut address = 0usize;
    let mut rest = memory;
    'words: while rest.len() >= 4 {
        let (word, after) = rest.split_at(4);
        push_word(out, address, word)?;
        address += 4;
        rest = after;
    }
    Ok(())
}

/// The report of a run: its ending, the number of its instructions, the pc, and each register and
/// each aligned word of data memory that is not 0. Numbers but the count are hexadecimal.
pub fn report_text(alloc: Global, end: &End) -> Result<String, AllocError>
    ensures { IfOk result (λ text. string_bytes text ≡ report_of end.now) }
{
    let ending = end.outcome;
    let count = end.n;
    let pc = Hexadecimal(end.pc);
    let mut out = format!(in alloc; "{ending}\ncount {count}\npc {pc}\n")?;
    push_registers(&mut out, &end.registers)?;
    push_memory(&mut out, end.memory.as_slice())?;
    Ok(out)
}

/// The line that names the fault of a listing, in place of a report.
pub fn fault_text(alloc: Global, fault: &TextFault) -> Result<String, AllocError>
    ensures { IfOk result (λ text. string_bytes text ≡ fault_line fault.now.line fault.now.kind) }
{
    let line = fault.line;
    let name = fault.kind.name();
    format!(in alloc; "fault line {line} {name}\n")
}
