//! More than one unit at work: a gate holds one until another works.
use super::{Shape, end_of_held, plain, report, run_listing, tally};
use crate::same::same;
use pool::{Gate, Run, Tally};
use snapshots::Snap;
use std::process::Abort;
use std::sync::atomic::AtomicU64;
use std::sync::atomic::Ordering::SeqCst;
use std::test::*;

/// Holds the first unit that asks until another has asked, and notes that it let the first one go then.
#[derive(Drop)]
struct Released {
    first: AtomicU64,
    other: AtomicU64,
    released: AtomicU64,
}

impl Gate for Released {
    fn held(&self, unit: u32, _station: u32) -> bool {
        let unit = unit as u64;
        let first = match self.first.compare_exchange(0, unit, SeqCst, SeqCst) {
            Ok(_) => unit,
            Err(first) => first,
        };
        if first != unit {
            self.other.store(unit, SeqCst);
            return false;
        }
        let waits = self.other.load(SeqCst) == 0;
        if !waits {
            self.released.store(1, SeqCst);
        }
        waits
    }

    fn seen(&self, _place: u32, _snap: &Snap) {}

    fn counted(&self, _tally: &Tally) {}
}

// On one thread the first unit is asked until its turns are gone, and never let go by the gate.
#[test]
fn a_held_unit_is_let_go_once_another_works(rt: HostRuntime) -> Result<(), Fail> {
    let gate = Released {
        first: AtomicU64::new(0),
        other: AtomicU64::new(0),
        released: AtomicU64::new(0),
    };
    let listing = b"addiu $1,$0,1\naddiu $2,$0,2\nbreak\n";
    let end = end_of_held(&rt, rt.alloc(), listing, 2, &gate)?;
    same(&rt, &end.n, &2);
    same(&rt, &gate.released.load(SeqCst), &1);
    Ok(())
}

/// Holds each unit until another one asks, or for a number of questions, and notes which have asked.
#[derive(Drop)]
pub(super) struct Passing {
    last: AtomicU64,
    asked: AtomicU64,
    pub(super) units: AtomicU64,
}

impl Gate for Passing {
    fn held(&self, unit: u32, _station: u32) -> bool {
        let unit = unit as u64;
        self.units.fetch_or(1u64 << (unit % 64), SeqCst);
        if self.last.swap(unit, SeqCst) != unit {
            self.asked.store(0, SeqCst);
            return false;
        }
        self.asked.fetch_add(1, SeqCst) % 1_000 != 999
    }

    fn seen(&self, _place: u32, _snap: &Snap) {}

    fn counted(&self, _tally: &Tally) {}
}

pub(super) fn no_question() -> Passing {
    Passing {
        last: AtomicU64::new(0),
        asked: AtomicU64::new(0),
        units: AtomicU64::new(0),
    }
}

/// Forty turns of a loop that stores, loads, and branches on what was loaded.
const MIXED: &str = ".space 4\nori $1,$0,40\nL: sw $1,0($0)\nlw $2,0($0)\naddiu $1,$2,-1\n\
    addiu $3,$3,1\nbne $1,$0,L\nbreak\n";

const MIXED_END: &str = "stop break\ncount 201\npc 0x00400018\n\
    r2 0x00000001\nr3 0x00000028\nm 0x00000000 0x00000001\n";

#[test]
fn misses_and_loads_are_run_by_several(rt: HostRuntime) -> Result<(), Fail> {
    let gate = no_question();
    let run = run_listing(&rt, rt.alloc(), MIXED.as_bytes(), &plain(4), &gate)?;
    let text = report(rt.alloc(), &run)?;
    assert!(rt; text.as_bytes() == MIXED_END.as_bytes(), "{text}");
    let tally = tally(&run)?;
    same(&rt, &tally.mends, &39);
    same(
        &rt,
        &tally.finishes.wrapping_add(tally.stale),
        &tally.claims,
    );
    same(&rt, &tally.squashes.wrapping_add(202), &tally.lets);
    assert!(rt; 40 <= tally.loads && 1 < gate.units.load(SeqCst).count_ones());
    Ok(())
}

#[test]
fn a_core_is_renewed_under_several(rt: HostRuntime) -> Result<(), Fail> {
    let gate = no_question();
    let shape = Shape {
        ring: 4,
        first_tag: 268_435_450,
        ..plain(4)
    };
    let listing = b"addiu $1,$0,30\nL: addiu $1,$1,-1\naddiu $2,$2,1\nbne $1,$0,L\nbreak\n";
    let run = run_listing(&rt, rt.alloc(), listing, &shape, &gate)?;
    let Run::Ended(end, tally) = run else {
        return Err(Fail::from("no end"));
    };
    same(&rt, &end.n, &91);
    same(&rt, &tally.squashes.wrapping_add(92), &tally.lets);
    assert!(rt; 3 <= tally.renewals && 1 < gate.units.load(SeqCst).count_ones());
    Ok(())
}
