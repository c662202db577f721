//! Operand words.
ghost use Rattle.std.specs.Prelude.{◌≡◌, ◌<◌, ◌↔◌};
ghost use Rattle.ruu_words.specs.Fields.{tag_count, pack, tag_of, state_of, word_value};
ghost use Rattle.ruu_words.specs.States.{IsOperandCode, operand_state_code};
ghost use Rattle.ruu_words.specs.declared.operand.OperandState.TheVariants.{Val};

/// Whether a source has its value.
#[derive(Clone, Copy)]
pub enum OperandState {
    Wait,
    Val,
}

/// The content of an operand word.
#[derive(Clone, Copy)]
pub struct OperandWord {
    /// The tag of the tenant whose source this is.
    pub tag: u32,
    pub state: OperandState,
    /// The value of the source; 0 while the source waits.
    pub value: u32,
}

impl OperandWord {
    /// The word: bits 63 to 36 are the tag, 35 to 32 the state, 31 to 0 the value.
    pub fn pack(self) -> u64
        requires tag { self.tag < tag_count }
        ensures { result ≡ pack self.tag (operand_state_code self.state) self.value }
    {
        let state: u64 = match self.state {
            OperandState::Wait => 1,
            OperandState::Val => 2,
        };
        let tag = u64::from(self.tag);
        (tag << 36) + (state << 32) + u64::from(self.value)
    }

    /// The fields of a word. A state's number that no state has reads as `Wait`.
    pub fn unpack(word: u64) -> OperandWord
        ensures tag { result.tag ≡ tag_of word }
        ensures state { IsOperandCode (state_of word) →
            operand_state_code result.state ≡ state_of word }
        ensures val { (result.state ≡ Val) ↔ (state_of word ≡ 2) }
        ensures small { result.tag < tag_count }
        ensures value { result.value ≡ word_value word }
    {
        let code = (word >> 32) & 15;
        let state = if code == 2 {
            OperandState::Val
        } else {
            OperandState::Wait
        };
        OperandWord {
            tag: (word >> 36) as u32,
            state,
            value: (word & 0xffff_ffff) as u32,
        }
    }
}
