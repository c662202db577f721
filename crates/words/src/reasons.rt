//! Why a listing has no words, or no executable, as it is told.

use crate::no_words::NoWords;
use counted_io::Fault;
use disassembly::Refusal;
use elf::Refusal as FileRefusal;
use instructions::Program;

/// What failed, where a device or memory did.
pub(crate) fn word_of(fault: Fault) -> &'static str {
    match fault {
        Fault::Read => "read",
        Fault::Memory => "memory",
        Fault::Write => "write",
    }
}

// The number of the instruction at an address.
fn index_of(address: u32) -> usize {
    (address.saturating_sub(Program::START) / 4) as usize
}

/// The number of the instruction that is refused, if it is one, and what is wrong.
pub(crate) fn reason_of(why: NoWords) -> (Option<usize>, &'static str) {
    match why {
        NoWords::Unsaid { index } => (Some(index), "no machine word says this instruction"),
        NoWords::Refused { why } => refused(why),
        NoWords::Differs | NoWords::Failed { .. } => (None, "the executable would differ"),
    }
}

fn refused(why: Refusal) -> (Option<usize>, &'static str) {
    match why {
        Refusal::Slot { address, .. } => (
            index_of(address).checked_sub(1),
            "a MIPS runs the instruction after this branch or jump: write nop after it",
        ),
        Refusal::NoSlot { address, .. } => (
            Some(index_of(address)),
            "a MIPS runs the instruction after this branch or jump: write nop after it",
        ),
        Refusal::Target { address, .. } => (
            Some(index_of(address)),
            "its target is after the last instruction: write break there",
        ),
        Refusal::Word { address, .. } => (
            Some(index_of(address)),
            "no machine word says this instruction",
        ),
        Refusal::File {
            why: FileRefusal::NoText,
        } => (None, "there is no instruction: write break"),
        Refusal::File { .. } | Refusal::Memory => (None, "the executable would differ"),
    }
}
