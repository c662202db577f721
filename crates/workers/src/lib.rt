//! The state that the threads of a run share, and its unit threads: each looks for work where it is
//! hinted, claims, waits at the gate, computes and finishes.
#![tactic(auto)]

mod backoff;
mod bounds;
mod compute;
mod gate;
mod gathered;
mod hinting;
mod search;
mod shared;
mod starting;
mod state;
mod turns;
mod unit;

pub use backoff::Backoff;
pub use bounds::Bounds;
pub use gate::{Gate, Open};
pub use gathered::Gathered;
pub use hinting::hint_each;
pub use shared::TermShared;
pub use starting::{start_units, units_at_once};
pub use state::RunState;
pub use turns::Turns;
