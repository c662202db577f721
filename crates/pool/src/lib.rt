//! Threads round one unit: one dispatches, one commits, some compute, some take snapshots. All are
//! joined before the answer.
#![tactic(auto)]

mod dispatch;
mod making;
mod renewal;
mod running;
mod starting;
mod terms;

pub use committing::{Refusal, Run};
pub use counts::Tally;
pub use running::run;
pub use workers::{Bounds, Gate, Open};
