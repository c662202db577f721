//! An issue policy of one's own, hooked onto the theorem as a chooser: in each round up to two tenants retire, the oldest
//! two that are ready execute, and up to two instructions are let. A chooser names steps that are possible, and whatever it
//! names, a run ends as the in-order machine does: so nothing is to be proved of the policy.
#![tactic(auto)]

mod policy;
mod runs;

pub use policy::DualIssue;
pub use runs::run;
