//! A unit of one's own in which a load reads memory ahead of a store whose address is not known, and is checked when it retires.
#![tactic(auto)]

mod runs;
mod station;

pub use runs::run;
pub use station::{Ahead, LoadAhead};
