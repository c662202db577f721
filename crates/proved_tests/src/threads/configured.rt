//! How many units are active.
use super::{plain, run_listing};
use crate::same::same;
use pool::{Gate, Run, Tally};
use snapshots::Snap;
use std::alloc::Global;
use std::process::Abort;
use std::sync::Wait;
use std::sync::atomic::AtomicU64;
use std::sync::atomic::Ordering::SeqCst;
use std::test::*;
use std::thread::{Threads, available_parallelism};

/// Lets each unit wait for a while between claim and finish, and notes which have asked.
#[derive(Drop)]
struct Slow {
    units: AtomicU64,
}

impl Gate for Slow {
    fn held(&self, unit: u32, _station: u32) -> bool {
        for _ in 0..2_000 {
            self.units.fetch_or(1u64 << (unit % 64), SeqCst);
        }
        false
    }

    fn seen(&self, _place: u32, _snap: &Snap) {}

    fn counted(&self, _tally: &Tally) {}
}

// The number of units that have asked the gate in a run of 2,000 instructions that wait for nothing.
fn active_units<R: Threads + Wait + Abort + Sync>(
    rt: &R,
    alloc: Global,
    listing: &[u8],
) -> Result<u32, Fail> {
    let gate = Slow {
        units: AtomicU64::new(0),
    };
    let run = run_listing(rt, alloc, listing, &plain(4), &gate)?;
    let Run::Ended(end, _) = run else {
        return Err(Fail::from("no end"));
    };
    same(rt, &end.n, &2_000);
    Ok(gate.units.load(SeqCst).count_ones())
}

// A machine of few processors runs one unit alone beside the threads that dispatch and commit, and a busy one may do so for
// a run. The listing has no branch, so that the unit finds work again and again.
#[test]
fn more_units_are_active_where_there_is_work(rt: HostRuntime) -> Result<(), Fail> {
    let processors = match available_parallelism(&rt) {
        Ok(processors) => processors.get(),
        Err(_) => 64,
    };
    let mut listing = Vec::new(rt.alloc());
    for _ in 0..2_000 {
        listing.extend_from_slice(b"nop\n")?;
    }
    listing.extend_from_slice(b"break\n")?;
    let mut most = 0;
    for _ in 0..40 {
        if most < 2 {
            most = active_units(&rt, rt.alloc(), listing.as_slice())?;
        }
    }
    assert!(rt; processors < 4 || 1 < most);
    Ok(())
}
