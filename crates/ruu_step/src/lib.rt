//! Steps of the in-order machine for C: `ruu_step`, `ruu_step_told` and `ruu_run`, which `ruu.h` declares.
#![tactic(auto)]

ghost use Rattle.std.specs.Prelude.{◌≡◌, length};
ghost use Rattle.lockstep.specs.Step.{machine_state, HoldsState};
ghost use Rattle.ruu_step.specs.Numbers.{call_number, change_left, left_of, many_number, many_state, many_steps};

use instructions::Program;
use lockstep::{Answer, Change, run_many, step, step_told};

const BAD_SIZES: i32 = -2;

// Whether a program can have these sizes.
fn are_allowed(text: &[u32], memory: &[u8]) -> bool
    ensures { result ≡ Rattle.ruu_step.specs.Numbers.are_allowed (length text.now) (length memory.now) }
{
    Program::fits(text.len(), memory.len())
}

// The number of an answer.
fn number_of(answer: Answer) -> i32
    ensures { result ≡ Rattle.ruu_step.specs.Numbers.answer_number answer }
{
    match answer {
        Answer::Went => 0,
        Answer::Stopped(stop) => 1 + stop.code() as i32,
        Answer::NoOperation => -1,
    }
}

/// Runs the instruction that the word at the pc says. 0: it went on; 1 and the number of a stop: it stops; -1: the word
/// is no operation; -2: sizes that no program has. All is as it was after each answer but 0. A caller in C has to pass
/// areas that are there, are aligned and do not overlap, since no proof sees it.
#[unsafe(no_mangle)]
pub extern "C" fn ruu_step(
    text: &[u32],
    memory: &mut [u8],
    registers: &mut [u32; 34],
    pc: &mut u32,
) -> i32
    ensures answer { result ≡ call_number text.now (machine_state registers.old memory.old pc.old) }
    ensures state { HoldsState registers.new memory.new pc.new
        (left_of text.now (machine_state registers.old memory.old pc.old)) }
{
    if !are_allowed(text, memory) {
        return BAD_SIZES;
    }
    number_of(step(text, memory, registers, pc))
}

/// Runs an instruction as `ruu_step` does, and tells what it has changed: all is 0 after each answer but 0.
#[unsafe(no_mangle)]
pub extern "C" fn ruu_step_told(
    text: &[u32],
    memory: &mut [u8],
    registers: &mut [u32; 34],
    pc: &mut u32,
    change: &mut Change,
) -> i32
    ensures answer { result ≡ call_number text.now (machine_state registers.old memory.old pc.old) }
    ensures state { HoldsState registers.new memory.new pc.new
        (left_of text.now (machine_state registers.old memory.old pc.old)) }
    ensures change { change.new ≡ change_left text.now (machine_state registers.old memory.old pc.old) }
{
    *change = Change::NONE;
    if !are_allowed(text, memory) {
        return BAD_SIZES;
    }
    number_of(step_told(text, memory, registers, pc, change))
}

/// Runs instructions as `ruu_step` does, at most as many as `steps` says, up to the first answer but 0. Afterwards `steps`
/// says how many went on.
#[unsafe(no_mangle)]
pub extern "C" fn ruu_run(
    text: &[u32],
    memory: &mut [u8],
    registers: &mut [u32; 34],
    pc: &mut u32,
    steps: &mut u64,
) -> i32
    ensures answer { result
        ≡ many_number text.now steps.old (machine_state registers.old memory.old pc.old) }
    ensures state { HoldsState registers.new memory.new pc.new
        (many_state text.now steps.old (machine_state registers.old memory.old pc.old)) }
    ensures steps { steps.new
        ≡ many_steps text.now steps.old (machine_state registers.old memory.old pc.old) }
{
    if !are_allowed(text, memory) {
        *steps = 0;
        return BAD_SIZES;
    }
    number_of(run_many(text, memory, registers, pc, steps))
}
