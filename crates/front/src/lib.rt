//! Dispatch: the front lets instructions into stations in program order, follows the predictor, and recovers
//! from its misses.
#![tactic(auto)]

mod ahead;
mod answers;
mod dispatch;
mod dispatcher;
mod fetch;
mod laws;
mod needs;
mod path;
mod recovery;
mod rest;
mod still;
mod turning;

pub use answers::{Made, Recovery, Rest, Turn};
pub use dispatcher::Front;
pub use laws::{
    a_front_enters_behind_a_renewal, a_recovery_keeps_the_older, registers_stay_behind_a_renewal,
};
pub use still::FrontStill;
