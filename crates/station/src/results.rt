//! Words of results, operands and links, packed.
ghost use Rattle.std.specs.Prelude.{◌≡◌, ◌<◌, IsTrue, false};
ghost use Rattle.inorder.specs.StationWords.{live_word};
ghost use Rattle.inorder.specs.Tenants.{Addr, Stopped};
ghost use Rattle.instructions.specs.declared.stop.Outcome.TheVariants.{Next};
ghost use Rattle.ruu_words.specs.Content.{IsOperandOf, IsStation};
ghost use Rattle.ruu_words.specs.Fields.{pack_link, tag_count};
ghost use Rattle.ruu_words.specs.Kinds.{IsMade, IsUnmade, fate_of};
ghost use Rattle.ruu_words.specs.States.{state_code};
ghost use Rattle.station.specs.Writeback.{val_word, wait_word};

use crate::words::done_word;
use instructions::{Outcome, Stop};
use ruu_words::{LinkWord, OperandState, OperandWord, StationState, StationWord};

/// The word of a load or store with its address.
pub(crate) fn address_word(tag: u32, address: u32) -> u64
    requires { tag < tag_count }
    ensures { IsStation (live_word tag (Addr address)) result }
{
    let word = StationWord {
        tag,
        state: StationState::Addr,
        value: address,
    };
    word.pack()
}

// The word of a branch that goes on at `next`: a miss where that was not predicted.
fn next_word(tag: u32, predicted: u32, next: u32) -> u64
    requires { tag < tag_count }
    ensures { IsStation (live_word tag (fate_of predicted (Next next))) result }
{
    if next == predicted {
        return done_word(tag, next);
    }
    let word = StationWord {
        tag,
        state: StationState::Miss,
        value: next,
    };
    word.pack()
}

fn stop_word(tag: u32, stop: Stop) -> u64
    requires { tag < tag_count }
    ensures { IsStation (live_word tag (Stopped stop)) result }
{
    let word = StationWord {
        tag,
        state: StationState::Stop,
        value: stop.code(),
    };
    word.pack()
}

/// The word of a tenant with this outcome.
pub(crate) fn outcome_word(tag: u32, predicted: u32, outcome: Outcome) -> u64
    requires { tag < tag_count }
    ensures { IsStation (live_word tag (fate_of predicted outcome)) result }
{
    match outcome {
        Outcome::Value(value) | Outcome::Pair(value, _) => done_word(tag, value),
        Outcome::Next(next) => next_word(tag, predicted, next),
        Outcome::Address(address) => address_word(tag, address),
        Outcome::Stop(stop) => stop_word(tag, stop),
    }
}

/// The word of an operand that waits.
pub(crate) fn waiting_word(tag: u32) -> u64
    requires { tag < tag_count }
    ensures { IsOperandOf (wait_word tag) result }
{
    let word = OperandWord {
        tag,
        state: OperandState::Wait,
        value: 0,
    };
    word.pack()
}

/// The word of an operand with its value.
pub(crate) fn value_word(tag: u32, value: u32) -> u64
    requires { tag < tag_count }
    ensures { IsOperandOf (val_word tag value) result }
{
    let word = OperandWord {
        tag,
        state: OperandState::Val,
        value,
    };
    word.pack()
}

/// The word of a link from a producer to a consumer.
pub(crate) fn link_word(producer: u32, consumer: u32) -> u64
    requires producer { producer < tag_count }
    requires consumer { consumer < tag_count }
    ensures { result ≡ pack_link producer consumer }
{
    LinkWord { producer, consumer }.pack()
}

/// True if a station in this state holds the result of its last tenant.
pub(crate) fn shows_value(state: StationState) -> bool
    ensures made { IsTrue result → IsMade (state_code state) }
    ensures unmade { (result ≡ false) → IsUnmade (state_code state) }
{
    matches!(state, StationState::Free | StationState::Done)
}
