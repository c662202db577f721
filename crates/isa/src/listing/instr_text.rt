//! Instructions as a listing has them.
ghost use Rattle.std.specs.Prelude.{◌≡◌, Some, slice_get, map};
ghost use Rattle.std.specs.Option.{option_map};
ghost use Rattle.isa.specs.InstrText.{TextIsReadBack, names, register_text, label_text, operand_text, separator, separated_text, text_of, is_nop as is_nop_of};

use super::form::form_as_written;
use super::slot::Slot;
use instructions::{Instr, Op, Reg};
use std::fmt;

/// The way in which the registers of an instruction are written.
#[derive(Clone, Copy, Debug, PartialEq, Eq)]
pub enum RegisterStyle {
    /// By their numbers, as `$29`.
    Numbers,
    /// By their names, as `$sp`.
    Names,
}

static NAMES: [&str; 32] = [
    "zero", "at", "v0", "v1", "a0", "a1", "a2", "a3", "t0", "t1", "t2", "t3", "t4", "t5", "t6",
    "t7", "s0", "s1", "s2", "s3", "s4", "s5", "s6", "s7", "t8", "t9", "k0", "k1", "gp", "sp", "fp",
    "ra",
];

// The entry of a table, if there is one.
fn entry_of<'a>(table: &[&'a str], at: usize) -> Option<&'a str>
    ensures { option_map (λ t. t.now) result ≡ slice_get (map (λ e. e.now) table.now) at }
{
    table.get(at).copied()
}

// The name of a general register.
fn name_of(register: Reg) -> Option<&'static str>
    ensures { option_map (λ t. t.now) result ≡ slice_get names register }
{
    entry_of(NAMES.as_slice(), usize::from(register.number()))
}

// A register, by its number or its name.
#[derive(Clone, Copy)]
struct Register {
    naming: RegisterStyle,
    register: Reg,
}

impl fmt::Display for Register {
    ghost output = { λ r. Some (register_text r.naming r.register) };

    fn fmt<W: fmt::Write>(&self, f: &mut fmt::Formatter<W>) -> fmt::Result {
        let number = self.register.number();
        match self.naming {
            RegisterStyle::Numbers => write!(f, "${number}"),
            RegisterStyle::Names => match name_of(self.register) {
                Some(name) => write!(f, "${name}"),
                None => write!(f, "${number}"),
            },
        }
    }
}

/// The label that stands for an address: `L` and its eight hexadecimal digits.
#[derive(Clone, Copy)]
pub struct Label(pub u32);

impl fmt::Display for Label {
    ghost output = { λ label. Some (label_text label.0) };

    fn fmt<W: fmt::Write>(&self, f: &mut fmt::Formatter<W>) -> fmt::Result {
        let address = self.0;
        write!(f, "L{address:08x}")
    }
}

// An operand of an instruction.
#[derive(Clone, Copy)]
struct Operand {
    naming: RegisterStyle,
    slot: Slot,
    instr: Instr,
}

impl fmt::Display for Operand {
    ghost output = { λ o. Some (operand_text o.naming o.slot o.instr) };

    fn fmt<W: fmt::Write>(&self, f: &mut fmt::Formatter<W>) -> fmt::Result {
        let naming = self.naming;
        let number = self.instr.number;
        let signed = number.cast_signed();
        let label = Label(number);
        let target = Register {
            naming,
            register: self.instr.target,
        };
        let first = Register {
            naming,
            register: self.instr.first,
        };
        let second = Register {
            naming,
            register: self.instr.second,
        };
        match self.slot {
            Slot::Into => write!(f, "{target}"),
            Slot::First => write!(f, "{first}"),
            Slot::Second => write!(f, "{second}"),
            Slot::S16 => write!(f, "{signed}"),
            Slot::U16 | Slot::U5 => write!(f, "{number}"),
            Slot::Label => write!(f, "{label}"),
            Slot::Offset => write!(f, "{signed}({first})"),
        }
    }
}

// Whether an instruction is a shift of register 0 by 0, which is `nop`.
fn is_nop(instr: &Instr) -> bool
    ensures { result ≡ is_nop_of instr.now }
{
    instr.op == Op::Sll
        && instr.target.number() == 0
        && instr.first.number() == 0
        && instr.number == 0
}

/// An instruction as a listing writes it, its registers by their numbers or their names. A target
/// is the label `L` with its address in hexadecimal.
#[derive(Clone, Copy)]
pub struct InstrText {
    pub naming: RegisterStyle,
    pub instr: Instr,
}

impl InstrText {
    /// An instruction with its registers by their numbers.
    pub fn by_numbers(instr: Instr) -> InstrText
        ensures { result ≡ record { naming = RegisterStyle.Numbers; instr = instr } }
    {
        let naming = RegisterStyle::Numbers;
        InstrText { naming, instr }
    }
}

// The separator before an operand: a blank before the first one, and a comma before each other.
fn separator(at: usize) -> &'static str
    ensures { result.now ≡ separator at }
{
    if at == 0 { " " } else { "," }
}

// The operands of an instruction, from the first one on.
#[derive(Clone, Copy)]
struct OperandsText<'a> {
    text: InstrText,
    slots: &'a [Slot],
}

impl fmt::Display for OperandsText<'_> {
    ghost output = { λ o. Some (separated_text 0
        (map (λ s. operand_text o.text.naming s o.text.instr) o.slots.now)) };

    fn fmt<W: fmt::Write>(&self, f: &mut fmt::Formatter<W>) -> fmt::Result {
        for (at, slot) in self.slots.iter().enumerate() {
            let separator = separator(at);
            let operand = Operand {
                naming: self.text.naming,
                slot: *slot,
                instr: self.text.instr,
            };
            write!(f, "{separator}{operand}")?;
        }
        Ok(())
    }
}

impl fmt::Display for InstrText {
    ghost output = { λ t. Some (text_of t.naming t.instr) };

    fn fmt<W: fmt::Write>(&self, f: &mut fmt::Formatter<W>) -> fmt::Result {
        if is_nop(&self.instr) {
            return f.write_str("nop");
        }
        let form = form_as_written(self.instr.op);
        let word = form.word;
        let operands = OperandsText {
            text: *self,
            slots: form.operands.slots(),
        };
        write!(f, "{word}{operands}")
    }
}

/// The text of each instruction that a listing can write is read back as that instruction, also after blanks: a law,
/// whose function does nothing.
pub fn text_is_read_back()
    ensures { TextIsReadBack }
{}
