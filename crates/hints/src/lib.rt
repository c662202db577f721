//! Hints of stations at which there may be work, in a queue that threads share: each hint is a station
//! of one ring, and they are taken in the order in which they were put, each once.
#![tactic(auto)]

mod deals;
mod hinter;
mod queue;

pub use deals::{Deal, Ring};
pub use hinter::Hinter;
pub use queue::Hints;
