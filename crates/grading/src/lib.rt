//! Grades of tables: each cell that no out-of-order unit allows, why, and the earliest cycle that would do.
#![tactic(auto)]

mod follows;
mod grading;
mod limits;
mod marks;
mod reason;
mod register;
mod said;
mod stations;

pub use grading::{Terms, graded};
pub use limits::{Bound, Limits};
pub use marks::{Grade, Wrong};
pub use stations::{Compared, stations_compared};
