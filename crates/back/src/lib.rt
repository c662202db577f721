//! The commit side of a shared unit: retirement in program order, the one memory port, and snapshots of what
//! was committed.
#![tactic(auto)]

mod answers;
mod backs;
mod commit;
mod ends;
mod entries;
mod laws;
mod port;
mod refresh;
mod seats;
mod show;
mod state;
mod still;

pub use answers::{Commit, Refresh};
pub use backs::Back;
pub use laws::a_back_enters_behind_a_renewal;
pub use snapshots::{Gone, Mark, NoPlace, OfProgram, Snap, Snapper};
pub use still::BackStill;
