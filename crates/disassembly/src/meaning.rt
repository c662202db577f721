//! The instructions that the words of a text mean.
ghost use Rattle.std.specs.Prelude.{◌≡◌, ◌≢◌, ◌<◌, ◌≤◌, ◌++◌, Ok, Err, IfOk, IfErr, OnOk, length};
ghost use Rattle.instructions.specs.Programs.{address as address_at};
ghost use Rattle.disassembly.specs.Writing.{AllSound};
ghost use Rattle.disassembly.specs.Meaning.{has_slot as has_slot_of, is_inside as is_inside_of, checked as checked_by, meant as meant_by, meant_up_to, refusal_list, refusals_up_to};

use crate::Refusal;
use crate::foreign::foreign_word;
use encoding::decode;
use instructions::{Instr, Kind, Op, Program};
use std::alloc::{AllocFailed, Global};

/// The address of word `k`.
pub fn address_of(k: usize) -> u32
    requires { k ≤ 16384 }
    ensures { result ≡ address_at k }
{
    Program::START + 4 * k as u32
}

// Whether an operation has a delay slot.
fn has_slot(op: Op) -> bool
    ensures { result ≡ has_slot_of op }
{
    matches!(op.kind(), Kind::Jumps | Kind::Links)
}

fn is_inside(len: usize, target: u32) -> bool
    requires { len ≤ 16384 }
    ensures { result ≡ is_inside_of len target }
{
    target % 4 == 0 && Program::START <= target && target < address_of(len)
}

// Instruction k, if its target and its delay slot are allowed.
fn checked(code: &[u32], k: usize, instr: Instr) -> Result<Instr, Refusal>
    requires small { length code.now ≤ 16384 }
    requires inside { k < length code.now }
    ensures { result ≡ checked_by code.now k instr }
{
    let op = instr.op();
    let address = address_of(k);
    let word = code[k];
    let target = instr.number();
    if op.names_target() && !is_inside(code.len(), target) {
        return Err(Refusal::Target {
            address,
            word,
            target,
        });
    }
    if !has_slot(op) {
        return Ok(instr);
    }
    match code.get(k + 1) {
        None => Err(Refusal::NoSlot { address, word }),
        Some(next) if *next == 0 => Ok(instr),
        Some(next) => Err(Refusal::Slot {
            address: address + 4,
            word: *next,
        }),
    }
}

// The instruction that word k means.
fn meant(code: &[u32], k: usize) -> Result<Instr, Refusal>
    requires small { length code.now ≤ 16384 }
    requires inside { k < length code.now }
    ensures { result ≡ meant_by code.now k }
{
    let address = address_of(k);
    let word = code[k];
    match decode(word, address) {
        Some(said) => checked(code, k, Instr::from(said)),
        None => Err(Refusal::Word {
            address,
            word,
            what: foreign_word(word),
        }),
    }
}

/// The instructions that the words of a text mean, or the first refusal.
#[tactic(auto, using(crate::proofs::Steps::meant_none, crate::proofs::Steps::meant_next, crate::proofs::Steps::refused_by_one, crate::proofs::Sound::all_sound))]
pub fn instructions(alloc: Global, code: &[u32]) -> Result<Vec<Instr>, Refusal>
    requires { length code.now ≤ 16384 }
    ensures ok { IfOk result (λ v. meant_up_to code.now (length code.now) ≡ Ok v.items) }
    ensures length { IfOk result (λ v. length v.items ≡ length code.now) }
    ensures sound { IfOk result (λ v. AllSound (length code.now) v.items) }
    ensures fault { IfErr result (λ e. e ≢ Refusal.Memory
        → meant_up_to code.now (length code.now) ≡ Err e) }
{
    let mut found = Vec::with_capacity(alloc, code.len())?;
    'words: for k in 0..code.len() {
        let instr = meant(code, k)?;
        found.push(instr)?;
    }
    Ok(found)
}

// Adds the refusal of a word, if it was refused.
fn push_refusal(
    all: &mut Vec<Refusal>,
    found: Result<Instr, Refusal>,
) -> Result<(), AllocFailed<Refusal>>
    ensures { OnOk result (all.new.items ≡ all.old.items ++ refusal_list found) }
{
    match found {
        Ok(_) => Ok(()),
        Err(refusal) => all.push(refusal),
    }
}

/// The refusals of all words of a text, in their order.
#[tactic(auto, using(crate::proofs::Steps::refusals_none, crate::proofs::Steps::refusals_next))]
pub fn refusals(alloc: Global, code: &[u32]) -> Result<Vec<Refusal>, AllocFailed<Refusal>>
    requires { length code.now ≤ 16384 }
    ensures { IfOk result (λ all. all.items ≡ refusals_up_to code.now (length code.now)) }
{
    let mut all = Vec::new(alloc);
    'words: for k in 0..code.len() {
        push_refusal(&mut all, meant(code, k))?;
    }
    Ok(all)
}
