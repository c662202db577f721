//! Words of tenants and sources, packed.
ghost use Rattle.std.specs.Prelude.{◌≡◌, suc, ◌<◌, Some};
ghost use Rattle.inorder.specs.Replies.{last_tag};
ghost use Rattle.inorder.specs.StationWords.{IsFree, live_word};
ghost use Rattle.inorder.specs.Tenants.{Done, Open};
ghost use Rattle.ruu_words.specs.Content.{IsOperandOf, IsStation};
ghost use Rattle.ruu_words.specs.Fields.{tag_count};
ghost use Rattle.station.specs.Claiming.{IsBusyWord};
ghost use Rattle.station.specs.Letting.{given_value};
ghost use Rattle.station.specs.Looking.{IsSourceState};

use crate::answers::{SourceState, Supply};
use ruu_words::{OperandState, OperandWord, StationState, StationWord};

/// The state of a source, by its operand word. The word is 0 while its station has had no tenant.
pub(crate) fn source_state(word: u64) -> SourceState
    ensures { IsSourceState word result }
{
    if word == 0 {
        return SourceState::Unset;
    }
    match OperandWord::unpack(word).state {
        OperandState::Wait => SourceState::Wait,
        OperandState::Val => SourceState::Val,
    }
}

/// The operand word of a source that is given at a let.
pub(crate) fn operand_word(tag: u32, source: Supply) -> u64
    requires { tag < tag_count }
    ensures { IsOperandOf (record { tag = tag; value = given_value source }) result }
{
    let (state, value) = match source {
        Supply::Known(value) => (OperandState::Val, value),
        Supply::From { .. } => (OperandState::Wait, 0),
    };
    OperandWord { tag, state, value }.pack()
}

/// The word of an open tenant.
pub(crate) fn open_word(tag: u32) -> u64
    requires { tag < tag_count }
    ensures { IsStation (live_word tag Open) result }
{
    let word = StationWord {
        tag,
        state: StationState::Open,
        value: 0,
    };
    word.pack()
}

/// The word of a claimed tenant.
pub(crate) fn busy_word(tag: u32) -> u64
    requires { tag < tag_count }
    ensures { IsBusyWord tag result }
{
    let word = StationWord {
        tag,
        state: StationState::Busy,
        value: 0,
    };
    word.pack()
}

/// The word of a tenant that is done.
pub(crate) fn done_word(tag: u32, value: u32) -> u64
    requires { tag < tag_count }
    ensures { IsStation (live_word tag (Done value)) result }
{
    let word = StationWord {
        tag,
        state: StationState::Done,
        value,
    };
    word.pack()
}

/// The word of a station whose tenant with this tag has left: it is free, with the next tag.
pub(crate) fn left_word(tag: u32, value: u32) -> u64
    requires { tag < last_tag }
    ensures { IsStation (record { tag = suc tag; state = IsFree; value = Some value }) result }
{
    let word = StationWord {
        tag: tag + 1,
        state: StationState::Free,
        value,
    };
    word.pack()
}
