//! The law of the words of a log.
ghost use Rattle.commit_log.specs.Words.{AWordSaysItsInstruction};

/// The word of an instruction is the one that says the instruction, and there is none where no word does: a law, whose
/// function does nothing.
pub fn a_word_says_its_instruction()
    ensures { AWordSaysItsInstruction }
{}
