//! The change by an instruction: registers, and the memory that it accesses.
ghost use Rattle.std.specs.Prelude.{◌≡◌, ◌++◌, Some, OnOk, codes, string_bytes, slice_index};
ghost use Rattle.isa.specs.Report.{hexadecimal};
ghost use Rattle.commit_log.specs.Lines.{change, change_of_register, register_column, register_with_value, store_text};

use crate::digits::Stored;
use crate::fetched::Fetched;
use instructions::{Half, Kind, Reg};
use isa::Hexadecimal;
use std::alloc::AllocError;
use std::fmt;

// A register, in three columns where it is a general one.
#[derive(Clone, Copy)]
struct Label(Reg);

impl fmt::Display for Label {
    ghost output = { λ label. Some (register_column label.0) };

    fn fmt<W: fmt::Write>(&self, f: &mut fmt::Formatter<W>) -> fmt::Result {
        let number = self.0.number();
        match number {
            32 => f.write_str("c32_lo"),
            33 => f.write_str("c33_hi"),
            _ if number < 10 => write!(f, "x{number} "),
            _ => write!(f, "x{number}"),
        }
    }
}

fn value_of(registers: &[u32; 34], r: Reg) -> u32
    ensures { result ≡ slice_index registers.now r }
{
    registers[r.number() as usize]
}

fn push_register(out: &mut String, registers: &[u32; 34], r: Reg) -> Result<(), AllocError>
    ensures { OnOk result
        (string_bytes out.new ≡ string_bytes out.old ++ register_with_value r registers.now) }
{
    let label = Label(r);
    let value = Hexadecimal(value_of(registers, r));
    write!(out, " {label} {value}")
}

// Adds a register that was written, but register 0, which never changes.
fn push_written(out: &mut String, registers: &[u32; 34], r: Reg) -> Result<(), AllocError>
    ensures { OnOk result
        (string_bytes out.new ≡ string_bytes out.old ++ change_of_register r registers.now) }
{
    if r.number() == 0 {
        return Ok(());
    }
    push_register(out, registers, r)
}

fn push_address(out: &mut String, address: u32) -> Result<(), AllocError>
    ensures { OnOk result (string_bytes out.new
        ≡ string_bytes out.old ++ (codes " mem " ++ hexadecimal address)) }
{
    let address = Hexadecimal(address);
    write!(out, " mem {address}")
}

// Adds the address of a store, and the bytes that it writes.
fn push_store(out: &mut String, fetched: &Fetched, registers: &[u32; 34]) -> Result<(), AllocError>
    ensures { OnOk result (string_bytes out.new ≡ string_bytes out.old
        ++ store_text fetched.now.instr fetched.now.address registers.now) }
{
    let stored = Stored {
        width: fetched.instr.op().width(),
        value: value_of(registers, fetched.instr.second()),
    };
    push_address(out, fetched.address)?;
    write!(out, " {stored}")
}

/// Adds the change by an instruction, by the registers after it.
pub(crate) fn push_change(
    out: &mut String,
    fetched: &Fetched,
    registers: &[u32; 34],
) -> Result<(), AllocError>
    ensures { OnOk result (string_bytes out.new ≡ string_bytes out.old
        ++ change fetched.now.instr fetched.now.address registers.now) }
{
    let instr = &fetched.instr;
    if instr.op().is_pair() {
        push_register(out, registers, Reg::LO)?;
        return push_register(out, registers, Reg::HI);
    }
    let written = instr.destination(Half::Low);
    match instr.op().kind() {
        Kind::Stores => push_store(out, fetched, registers),
        Kind::Loads => {
            push_written(out, registers, written)?;
            push_address(out, fetched.address)
        }
        _ => push_written(out, registers, written),
    }
}
