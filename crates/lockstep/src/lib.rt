//! One step of the in-order machine over machine words and over buffers of a caller, for a simulator that
//! runs beside it.
#![tactic(auto)]

mod change;
mod laws;
mod stepping;

pub use change::Change;
pub use laws::{a_run_is_the_machines, a_step_is_the_machines};
pub use stepping::{Answer, run_many, step, step_told};
