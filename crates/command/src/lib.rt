//! The command line of `ruu`, and the run that it asks for.
#![tactic(auto)]

mod running;
mod single_thread;

pub use command_line::{
    Asked, BranchPredictor, Exit as Went, Line, NoRun, Progress, Refusal, asked, end,
    is_standard_input, status,
};
pub use running::go;
