//! Lines of a listing, added to its text.
ghost use Rattle.std.specs.Prelude.{◌≡◌, ◌≤◌, ◌++◌, OnOk, string_bytes};
ghost use Rattle.disassembly.specs.Writing.{as_line, code_line, label_line};

use crate::meaning::address_of;
use instructions::Instr;
use isa::{InstrText, Label, RegisterStyle};
use std::alloc::AllocError;

/// Adds the line of an instruction. Its target is the label of the address.
pub fn push_line(out: &mut String, instr: &Instr) -> Result<(), AllocError>
    ensures { OnOk result (string_bytes out.new
        ≡ string_bytes out.old ++ as_line (code_line instr.now)) }
{
    let text = InstrText {
        naming: RegisterStyle::Names,
        instr: *instr,
    };
    write!(out, "        {text}\n")
}

/// Adds the line of the label of instruction `k`.
pub fn push_label(out: &mut String, k: usize) -> Result<(), AllocError>
    requires { k ≤ 16384 }
    ensures { OnOk result (string_bytes out.new
        ≡ string_bytes out.old ++ as_line (label_line k)) }
{
    let label = Label(address_of(k));
    write!(out, "{label}:\n")
}
