//! Fetch, from the decoded instructions of a program.
ghost use Rattle.std.specs.Prelude.{◌≡◌, IfOk, Some, option_copied};
ghost use Rattle.instructions.specs.Programs.{Program as Text, instr_at};
ghost use Rattle.one_thread.specs.Decoding.{HasInstr, IsDecoded, text_index};

use crate::decoded::Decoded;
use instructions::{Memory, Program};
use std::alloc::Global;

/// The instructions of a program, decoded.
pub fn decode_all(alloc: Global, program: &Program) -> Result<Vec<Decoded>, Memory>
    ensures { IfOk result (λ code. IsDecoded code.items program.now) }
{
    let mut code = Vec::with_capacity(alloc, program.len())?;
    for i in 0..program.len() {
        code.push(Decoded::new(*program.instr(i)))?;
    }
    Ok(code)
}

// Where the instruction of an address stands. An address that is no multiple of 4 comes far after the last.
#[inline(always)]
fn index_of(pc: u32) -> usize
    ensures { result ≡ text_index pc }
{
    pc.wrapping_sub(Program::START).rotate_right(2) as usize
}

/// The instruction at an address, if it is that of one.
#[inline(always)]
pub fn fetch_at(code: &[Decoded], pc: u32) -> Option<&Decoded>
    ensures { (P : Text) → IsDecoded code.now P → option_copied result ≡ instr_at P pc }
{
    let at = index_of(pc);
    if code.len() <= at {
        return None;
    }
    Some(&code[at])
}

/// The instruction at an address that is known to be that of one.
#[inline(always)]
pub fn fetch_known(code: &[Decoded], pc: u32) -> &Decoded
    requires { HasInstr code.now pc }
    ensures { (P : Text) → IsDecoded code.now P → instr_at P pc ≡ Some result.now }
{
    let at = index_of(pc);
    &code[at]
}
