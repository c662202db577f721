//! Readers and writers whose failures are counted, read to the end and written in whole.
#![tactic(auto)]

mod counted;
mod fault;
mod input;
mod output;
mod streams;

pub use counted::Counted;
pub use fault::Fault;
pub use input::read_up_to;
pub use output::{WriteFailed, write_text, write_whole};
pub use streams::ClosedStreams;
