//! The answer to a listing: it is read, and the report of its run or the line of its first fault is written, with a status.
#![tactic(auto)]

mod listing;
mod outcome;

pub use listing::{MOST_TAKEN, read_listing};
pub use outcome::Status;
