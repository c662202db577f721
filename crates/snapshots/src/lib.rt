//! Snapshots of a run: one publisher shows in-order states of a program, snappers take the newest.
#![tactic(auto)]

mod mark;
mod publisher;
mod rule;
mod snap;
mod snapper;

pub use mark::Mark;
pub use publisher::Publisher;
pub use rule::OfProgram;
pub use snap::Snap;
pub use snapper::{Gone, NoPlace, Snapper};
