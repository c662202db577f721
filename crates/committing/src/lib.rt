//! The commit thread of a run, and its snapshot threads.
#![tactic(auto)]

mod commit;
mod ends;
mod snappers;
mod watch;

pub use commit::{Committer, PATIENCE};
pub use ends::{Refusal, Run};
pub use snappers::start_snappers;
