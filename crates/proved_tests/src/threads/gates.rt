//! What a gate sees, and what the tally counts.
use super::{Shape, end_of_held, plain, run_listing, tally};
use crate::meeting::Meeting;
use crate::same::same;
use pool::{Gate, Open, Run, Tally};
use snapshots::Snap;
use std::process::Abort;
use std::sync::atomic::AtomicU64;
use std::sync::atomic::Ordering::SeqCst;
use std::test::*;

// A unit that rests works, however many units the machine runs at once.
#[test]
fn a_unit_that_rests_works_where_another_is_held(rt: HostRuntime) -> Result<(), Fail> {
    let listing = b"nop\nnop\nnop\nnop\nnop\nnop\nnop\nnop\nnop\nbreak\n";
    let gate = Meeting::new(0b1_1111_1110);
    let end = end_of_held(&rt, rt.alloc(), listing, 8, &gate)?;
    same(&rt, &end.n, &9);
    same(&rt, &gate.asked.load(SeqCst), &gate.all);
    Ok(())
}

const LISTING: &[u8] = b"addiu $1,$0,5\naddu $2,$1,$1\nbreak\n";

#[test]
fn each_step_is_counted_once(rt: HostRuntime) -> Result<(), Fail> {
    for units in [1, 4] {
        let run = run_listing(&rt, rt.alloc(), LISTING, &plain(units), &Open)?;
        let tally = tally(&run)?;
        let expected = Tally {
            lets: 3,
            claims: 3,
            finishes: 3,
            stale: 0,
            loads: 0,
            retires: 2,
            squashes: 0,
            mends: 0,
            hints: tally.hints,
            renewals: 0,
        };
        same(&rt, &tally, &expected);
        assert!(rt; tally.hints <= 3);
    }
    Ok(())
}

// Which places were told of a snapshot.
#[derive(Drop)]
struct Places {
    first: AtomicU64,
    others: AtomicU64,
}

impl Gate for Places {
    fn held(&self, _unit: u32, _station: u32) -> bool {
        false
    }

    fn seen(&self, place: u32, _snap: &Snap) {
        if place == 1 {
            self.first.store(1, SeqCst);
        } else {
            self.others.store(1, SeqCst);
        }
    }

    fn counted(&self, _tally: &Tally) {}
}

// A place may be refused while it is free, so that one run may show the first place alone.
#[test]
fn snapshots_are_taken_at_several_places(rt: HostRuntime) -> Result<(), Fail> {
    let shape = Shape {
        places: 4,
        ..plain(1)
    };
    for _ in 0..100 {
        let gate = Places {
            first: AtomicU64::new(0),
            others: AtomicU64::new(0),
        };
        run_listing(&rt, rt.alloc(), LISTING, &shape, &gate)?;
        same(&rt, &gate.first.load(SeqCst), &1);
        if gate.others.load(SeqCst) == 1 {
            return Ok(());
        }
    }
    Err(Fail::from("no other place"))
}

// What place 1 was told last, and the first n that was no multiple of 64; the retirements of the last
// tally, how many tallies were told, and the first retirements that were no multiple of 64.
#[derive(Drop)]
struct Watcher {
    last: AtomicU64,
    odd: AtomicU64,
    retires: AtomicU64,
    tallies: AtomicU64,
    odd_retires: AtomicU64,
}

impl Gate for Watcher {
    fn held(&self, _unit: u32, _station: u32) -> bool {
        false
    }

    fn seen(&self, _place: u32, snap: &Snap) {
        self.last.store(snap.n, SeqCst);
        if snap.n % 64 != 0 {
            let _ = self.odd.compare_exchange(0, snap.n, SeqCst, SeqCst);
        }
    }

    fn counted(&self, tally: &Tally) {
        self.retires.store(tally.retires, SeqCst);
        self.tallies.fetch_add(1, SeqCst);
        if tally.retires % 64 != 0 {
            let _ = self
                .odd_retires
                .compare_exchange(0, tally.retires, SeqCst, SeqCst);
        }
    }
}

#[test]
fn snapshots_are_shown_each_64_instructions_and_at_the_end(rt: HostRuntime) -> Result<(), Fail> {
    let listing = b"ori $1,$0,300\nL: addiu $1,$1,-1\nbne $1,$0,L\nbreak\n";
    for units in [1, 4] {
        let gate = Watcher {
            last: AtomicU64::new(0),
            odd: AtomicU64::new(0),
            retires: AtomicU64::new(0),
            tallies: AtomicU64::new(0),
            odd_retires: AtomicU64::new(0),
        };
        let run = run_listing(&rt, rt.alloc(), listing, &plain(units), &gate)?;
        let Run::Ended(end, _) = run else {
            return Err(Fail::from("ended"));
        };
        same(&rt, &end.n, &601);
        same(&rt, &gate.last.load(SeqCst), &end.n);
        same(&rt, &gate.odd.load(SeqCst), &end.n);
        same(&rt, &gate.retires.load(SeqCst), &end.n);
        same(&rt, &gate.tallies.load(SeqCst), &10);
        same(&rt, &gate.odd_retires.load(SeqCst), &end.n);
    }
    Ok(())
}
