//! Verdicts on the events of an out-of-order unit as texts: the events that are legal with their counts and their report, or
//! the first that is not, with the reason and the stations concerned.
#![tactic(auto)]

mod reasons;
mod tenants;
mod verdict;

pub use verdict::{legal_text, push_event, refused_text, unread_text};
