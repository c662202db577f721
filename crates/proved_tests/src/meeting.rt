//! A gate at which all units of a run meet.
use pool::{Gate, Tally};
use snapshots::Snap;
use std::sync::atomic::AtomicU64;
use std::sync::atomic::Ordering::SeqCst;

/// Holds each unit until all of them have asked; both numbers have a bit for each unit.
#[derive(Drop)]
pub(crate) struct Meeting {
    pub all: u64,
    pub asked: AtomicU64,
}

impl Meeting {
    pub(crate) fn new(all: u64) -> Meeting {
        Meeting {
            all,
            asked: AtomicU64::new(0),
        }
    }
}

impl Gate for Meeting {
    fn held(&self, unit: u32, _station: u32) -> bool {
        let own = 1u64 << (unit % 64);
        self.asked.fetch_or(own, SeqCst) | own != self.all
    }

    fn seen(&self, _place: u32, _snap: &Snap) {}

    fn counted(&self, _tally: &Tally) {}
}
