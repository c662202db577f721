//! One event of a log, with its place.
use crate::event::Event;

/// An event, with its line in the log, and its cycle where the log has cycles.
#[derive(Clone, Copy)]
pub struct Item {
    pub line: u64,
    pub cycle: Option<u64>,
    pub event: Event,
}
