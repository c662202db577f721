//! Totals that threads add to without a lock: at every moment each is the sum of the seats' shares
//! modulo 2^64. No call waits, and none but `Counts::make` takes memory.
#![tactic(auto)]

mod seats;
mod shares;
mod tally;
mod totals;

pub use seats::{CountSeat, WorkerSeat};
pub use shares::{Addition, Known, Share, Shares};
pub use tally::{Tally, Total};
pub use totals::Counts;
