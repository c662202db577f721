//! The words of a program.
ghost use Rattle.std.specs.Prelude.{◌≡◌, ◌≤◌, ◌<◌, IfOk, length};
ghost use Rattle.instructions.specs.Programs.{address as address_at};
ghost use Rattle.words.specs.Encoded.{SayAll};

use crate::no_words::NoWords;
use encoding::{Decoded, encode};
use instructions::Program;
use std::alloc::Global;

/// The address of instruction `k`.
pub(crate) fn address_of(k: usize) -> u32
    requires { k < 16384 }
    ensures { result ≡ address_at k }
{
    Program::START + 4 * k as u32
}

/// The machine words of a program, each of which says its instruction.
pub(crate) fn words_of(alloc: Global, program: &Program) -> Result<Vec<u32>, NoWords>
    ensures ok { IfOk result (λ words. SayAll words.items program.now.code) }
    ensures few { IfOk result (λ words. length words.items ≤ 16384) }
{
    let mut words = Vec::with_capacity(alloc, program.len())?;
    'instructions: for k in 0..program.len() {
        let decoded = Decoded::from(*program.instr(k));
        match encode(&decoded, address_of(k)) {
            Some(word) => words.push(word)?,
            None => return Err(NoWords::Unsaid { index: k }),
        }
    }
    Ok(words)
}
