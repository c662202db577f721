//! A unit of one's own, hooked onto the theorem: one station, so that instructions are issued in order. Each of its
//! transitions is allowed steps of the one-thread unit, so its runs are those of the in-order machine.
#![tactic(auto)]

mod runs;
mod station;

pub use runs::run;
