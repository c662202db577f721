//! The words that a core shares: their layouts, their places in one table, and the rule that ties
//! them to one legal history.
#![tactic(auto)]

mod info;
mod laws;
mod link;
mod operand;
mod place;
pub mod rule;
mod station;

pub use info::InfoWord;
pub use laws::{a_new_table_has_first_words, a_table_goes_on, places_are_apart, words_read_back};
pub use link::LinkWord;
pub use operand::{OperandState, OperandWord};
pub use place::{Place, word_count};
pub use station::{StationState, StationWord};
