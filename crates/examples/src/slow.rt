//! A gate at which units wait.
use pool::{Gate, Tally};
use snapshots::Snap;
use std::sync::atomic::AtomicU64;
use std::sync::atomic::Ordering::SeqCst;

/// Holds a unit between claim and finish for a number of questions, whoever asks them.
const QUESTIONS: u64 = 16;

/// Lets each sixteenth question pass. A unit that holds a job waits meanwhile, and others are called.
#[derive(Drop)]
pub struct Slow {
    asked: AtomicU64,
}

impl Slow {
    pub fn new() -> Slow {
        Slow {
            asked: AtomicU64::new(0),
        }
    }
}

impl Gate for Slow {
    fn held(&self, _unit: u32, _station: u32) -> bool {
        self.asked.fetch_add(1, SeqCst) % QUESTIONS != 0
    }

    fn seen(&self, _place: u32, _snap: &Snap) {}

    fn counted(&self, _tally: &Tally) {}
}
