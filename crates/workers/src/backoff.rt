//! The backoff of a thread that finds nothing to do.
use std::thread::yield_now;

/// Yields once `after` turns in a row have found no work.
#[derive(Clone, Copy)]
pub struct Backoff {
    after: u32,
    turns_left: u32,
}

impl Backoff {
    /// Lets another thread run at the fruitless turn that follows this number of others.
    pub fn after(turns: u32) -> Backoff {
        Backoff {
            after: turns,
            turns_left: turns,
        }
    }

    /// Begins again: a turn was not fruitless.
    pub fn reset(&mut self) {
        self.turns_left = self.after;
    }

    /// Counts a fruitless turn; or lets another thread run where enough were counted, and begins again.
    pub fn snooze(&mut self) {
        if self.turns_left == 0 {
            yield_now();
            self.turns_left = self.after;
        } else {
            self.turns_left -= 1;
        }
    }
}
