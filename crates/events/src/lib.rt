//! Events that a log tells of an out-of-order unit: their text, and a verdict on each.
#![tactic(auto)]

mod dispatch;
mod event;
mod execution;
mod grammar;
mod item;
mod judge;
mod law;
mod leaving;
mod log_judge;
mod stated;
mod text;
mod text_law;
mod unread;
mod verdict;
mod why;
mod words;

pub use event::{Event, Issue};
pub use grammar::event_in;
pub use item::Item;
pub use judge::Judge;
pub use law::{a_log_that_is_taken_is_a_history, a_refused_event_is_free_of_placing};
pub use log_judge::LogJudge;
pub use text::{Said, fault_of, next_said, verdict_on};
pub use text_law::a_legal_text_is_a_history;
pub use unread::Unread;
pub use verdict::{Refused, Verdict};
pub use why::Why;
