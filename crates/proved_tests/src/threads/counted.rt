//! What is counted in a long run, at its end and on the way.
use super::{plain, run_listing, tally};
use crate::same::same;
use pool::{Gate, Open, Run, Tally};
use snapshots::Snap;
use std::process::Abort;
use std::sync::atomic::AtomicU64;
use std::sync::atomic::Ordering::SeqCst;
use std::test::*;

// 5,000 turns, of which all branches but the last are mispredicted.
const LOOP: &[u8] = b"ori $1,$0,5000\nL: addiu $1,$1,-1\nbne $1,$0,L\nbreak\n";

// Each tenant retires or is squashed, each claim is finished or came too late, and each miss is mended once.
#[test]
fn no_count_is_lost_or_doubled(rt: HostRuntime) -> Result<(), Fail> {
    for units in [1, 4] {
        let run = run_listing(&rt, rt.alloc(), LOOP, &plain(units), &Open)?;
        let Run::Ended(end, tally) = run else {
            return Err(Fail::from("not ended"));
        };
        same(&rt, &end.n, &10_001);
        same(&rt, &tally.retires, &10_001);
        same(&rt, &tally.mends, &4_999);
        same(&rt, &tally.lets, &tally.squashes.wrapping_add(10_002));
        same(
            &rt,
            &tally.claims,
            &tally.finishes.wrapping_add(tally.stale),
        );
        assert!(rt; 10_002 <= tally.finishes && tally.stale <= tally.squashes);
        assert!(rt; tally.hints <= tally.claims && tally.claims <= tally.lets);
    }
    Ok(())
}

#[test]
fn each_load_is_counted_once(rt: HostRuntime) -> Result<(), Fail> {
    let listing = b".space 16\nlw $1,0($0)\nlw $2,4($0)\nlw $3,8($0)\nlw $4,12($0)\nbreak\n";
    for units in [1, 4] {
        let run = run_listing(&rt, rt.alloc(), listing, &plain(units), &Open)?;
        let tally = tally(&run)?;
        same(&rt, &tally.loads, &4);
    }
    Ok(())
}

/// The tally that was told last.
#[derive(Drop)]
struct Last {
    lets: AtomicU64,
    claims: AtomicU64,
    finishes: AtomicU64,
    stale: AtomicU64,
    mends: AtomicU64,
    retires: AtomicU64,
}

impl Gate for Last {
    fn held(&self, _unit: u32, _station: u32) -> bool {
        false
    }

    fn seen(&self, _place: u32, _snap: &Snap) {}

    fn counted(&self, tally: &Tally) {
        self.lets.store(tally.lets, SeqCst);
        self.claims.store(tally.claims, SeqCst);
        self.finishes.store(tally.finishes, SeqCst);
        self.stale.store(tally.stale, SeqCst);
        self.mends.store(tally.mends, SeqCst);
        self.retires.store(tally.retires, SeqCst);
    }
}

// Told no more than there was at the end, and no less but for what a thread may hold back.
fn told(told: &AtomicU64, end: u64) -> bool {
    let told = told.load(SeqCst);
    told <= end && end <= told.saturating_add(200)
}

#[test]
fn the_gate_is_told_what_was_counted(rt: HostRuntime) -> Result<(), Fail> {
    let gate = Last {
        lets: AtomicU64::new(0),
        claims: AtomicU64::new(0),
        finishes: AtomicU64::new(0),
        stale: AtomicU64::new(0),
        mends: AtomicU64::new(0),
        retires: AtomicU64::new(0),
    };
    let run = run_listing(&rt, rt.alloc(), LOOP, &plain(1), &gate)?;
    let tally = tally(&run)?;
    same(&rt, &gate.retires.load(SeqCst), &tally.retires);
    assert!(rt; told(&gate.lets, tally.lets) && told(&gate.claims, tally.claims));
    assert!(rt; told(&gate.finishes, tally.finishes) && told(&gate.stale, tally.stale));
    assert!(rt; told(&gate.mends, tally.mends));
    Ok(())
}
