//! A unit of one's own with two stations: the second is executed before the first, past branches too.
#![tactic(auto)]

mod runs;
mod station;

pub use runs::run;
pub use station::{Early, Lookahead};
