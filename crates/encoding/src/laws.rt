//! Laws of every word: functions that do nothing, with contracts that are proved.
ghost use Rattle.encoding.specs.Laws.{OneWordForEachInstruction, EachOperationHasAWord, EachWordIsWritten};

/// Two words that say one instruction at an address are one word: no bit of a word is without a
/// meaning.
pub fn one_word_for_each_instruction()
    ensures { OneWordForEachInstruction }
{}

/// Each operation of the language has a word.
pub fn each_operation_has_a_word()
    ensures { EachOperationHasAWord }
{}

/// The instruction of a word can be written in a listing. That its text is read back is a law of `isa`.
pub fn each_word_is_written()
    ensures { EachWordIsWritten }
{}
