//! What the words of a command line of `ruu` ask for, why they are refused, and how programs end.
#![tactic(auto)]

mod arguments;
mod chosen;
mod entered;
mod entries;
mod exit;
mod logged;
mod no_run;
mod reading;
mod refusals;
mod request;
mod tool;
mod totals;
mod values;
mod word;

pub use chosen::{Chosen, choose};
pub use exit::{Exit, Line, REFUSED, Refusal, end, refused};
pub use logged::Logged;
pub use no_run::{NoRun, refuse, status, words};
pub use reading::{asked, parse_chart, parse_check, parse_commits, parse_drive};
pub use request::{
    Asked, BranchPredictor, ByHand, Charted, Checked, RunRequest, is_standard_input,
};
pub use totals::Progress;
