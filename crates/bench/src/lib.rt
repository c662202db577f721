//! The one-thread unit, and a listing's way from the bytes of a reader to those of a writer.
#![tactic(auto)]

mod bytes;
mod running;

pub use answers::Status;
pub use bytes::alone;
pub use counted_io::{Counted, Fault};
pub use one_thread::{Bench, Turn};
pub use running::run_by;
pub use streaming::run;
