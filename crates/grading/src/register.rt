//! The name of a register.
use instructions::{Instr, Op, Reg};
use isa::{InstrText, RegisterStyle};
use std::alloc::AllocError;

/// Adds the name of a register, as an instruction that reads it alone has it.
pub(crate) fn push_register(out: &mut String, register: Reg) -> Result<(), AllocError> {
    match register.number() {
        32 => out.push_str("LO"),
        33 => out.push_str("HI"),
        _ => {
            let text = InstrText {
                naming: RegisterStyle::Names,
                instr: Instr::new(Op::Jr, Reg::ZERO, register, Reg::ZERO, 0),
            };
            let alloc = *out.allocator();
            let text = format!(in alloc; "{text}")?;
            match text.as_str().split_once(' ') {
                Some((_, name)) => out.push_str(name),
                None => Ok(()),
            }
        }
    }
}
