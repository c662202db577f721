//! What proves a model of one's own: the architectural state, and the lemmas that lead from its transitions to allowed steps.
#![tactic(auto)]

mod state;

pub use state::{ArchitecturalState, Second};
