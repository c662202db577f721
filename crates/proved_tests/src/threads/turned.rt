//! Runs by a command line have all of the turns that it names.
use command::{asked, go};
use counted_io::Counted;
use pool::{Gate, Tally};
use snapshots::Snap;
use std::alloc::Global;
use std::process::Abort;
use std::sync::Wait;
use std::sync::atomic::AtomicU64;
use std::sync::atomic::Ordering::SeqCst;
use std::test::*;
use std::thread::{Threads, yield_now};

const TURNS: u64 = 1_000_000;

/// Lets 64 instructions pass, and holds the unit at the next one for more than half of its turns. The commit thread
/// shows these 64, and waits meanwhile, so that its own turns last.
#[derive(Drop)]
struct Holding {
    passed: AtomicU64,
    asked: AtomicU64,
}

impl Gate for Holding {
    fn held(&self, _unit: u32, _station: u32) -> bool {
        if self.passed.load(SeqCst) < 64 {
            self.passed.fetch_add(1, SeqCst);
            return false;
        }
        self.asked.fetch_add(1, SeqCst) < TURNS / 2
    }

    fn seen(&self, _place: u32, _snap: &Snap) {}

    fn counted(&self, _tally: &Tally) {
        for _ in 0..20 * TURNS {
            if TURNS / 2 < self.asked.load(SeqCst) {
                break;
            }
            yield_now();
        }
    }
}

/// Whether a run came to its end whose unit was held for more than half of its turns. Each question takes a turn, so that
/// with half of the turns the unit does not come to the end.
fn held_for_more_than_half<T: Threads + Wait + Sync>(
    wait: &T,
    alloc: Global,
) -> Result<bool, Fail> {
    let words = ["ruu", "run", "adds.s", "--units", "1", "--turns", "1000000"];
    let Ok(asked) = asked(alloc, words.as_slice()) else {
        return Err(Fail::new("there is no run"));
    };
    let gate = Holding {
        passed: AtomicU64::new(0),
        asked: AtomicU64::new(0),
    };
    let mut listing = Vec::new(alloc);
    for _ in 0..70 {
        listing.extend_from_slice(b"addiu $1,$1,1\n")?;
    }
    listing.extend_from_slice(b"break\n")?;
    let mut writer = Counted::new(Vec::new(alloc));
    let mut reader = Some(Counted::new(listing.as_slice()));
    let went = go(wait, alloc, &asked, &mut reader, &mut writer, &gate);
    Ok(went.status == 0 && TURNS / 2 < gate.asked.load(SeqCst))
}

// Where other programs take the processors, the dispatch thread can use up its own turns before the unit is asked so
// often: then it is tried again.
#[test]
fn a_run_has_more_than_half_of_the_turns_that_are_said(rt: HostRuntime) -> Result<(), Fail> {
    for _ in 0..20 {
        if held_for_more_than_half(&rt, rt.alloc())? {
            return Ok(());
        }
    }
    Err(Fail::new("the turns did not last"))
}
