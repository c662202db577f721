//! Runs have the ring, queue, units, turns, predictor and gate that the command line and the caller name.
use crate::meeting::Meeting;
use crate::same::{same, same_in};
use command::{Line, Went, asked, go};
use counted_io::Counted;
use pool::{Gate, Tally};
use snapshots::Snap;
use std::alloc::Global;
use std::convert::AsStr;
use std::process::Abort;
use std::sync::Wait;
use std::sync::atomic::AtomicU64;
use std::sync::atomic::Ordering::SeqCst;
use std::test::Fail;
use std::thread::Threads;

fn watched<R: Threads + Wait + Sync, S: AsStr, G: Gate + Sync>(
    wait: &R,
    alloc: Global,
    words: &[S],
    listing: &[u8],
    gate: &G,
) -> Result<Went, Fail> {
    let Ok(asked) = asked(alloc, words) else {
        return Err(Fail::new("there is no run"));
    };
    let mut writer = Counted::new(Vec::new(alloc));
    let mut reader = Some(Counted::new(listing));
    Ok(go(wait, alloc, &asked, &mut reader, &mut writer, gate))
}

/// Ten instructions that wait for nothing.
const PLAIN: &[u8] = b"nop\nnop\nnop\nnop\nnop\nnop\nnop\nnop\nnop\nnop\nbreak\n";

/// Notes the stations at which it is asked, and how often it is told of a snapshot.
#[derive(Drop)]
struct Stations {
    asked: AtomicU64,
    told: AtomicU64,
}

impl Gate for Stations {
    fn held(&self, _unit: u32, station: u32) -> bool {
        self.asked.fetch_or(1u64 << (station % 64), SeqCst);
        false
    }

    fn seen(&self, place: u32, snap: &Snap) {
        if place == 1 {
            self.told.store(snap.n, SeqCst);
        }
    }

    fn counted(&self, _tally: &Tally) {}
}

#[test]
fn a_run_has_as_many_stations_as_is_said(rt: HostRuntime) -> Result<(), Fail> {
    let cases: [(&str, u64); 3] = [("2", 0b11), ("4", 0b1111), ("8", 0xff)];
    for (ring, all) in cases {
        let gate = Stations {
            asked: AtomicU64::new(0),
            told: AtomicU64::new(0),
        };
        let words = ["ruu", "run", "plain.s", "--ruu-size", ring];
        let went = watched(&rt, rt.alloc(), words.as_slice(), PLAIN, &gate)?;
        same(&rt, &went.status, &0);
        same_in(&rt, &ring, &gate.asked.load(SeqCst), &all);
        same(&rt, &gate.told.load(SeqCst), &10);
    }
    Ok(())
}

#[test]
fn a_run_has_as_many_units_as_is_said(rt: HostRuntime) -> Result<(), Fail> {
    let cases: [(&str, u64); 3] = [("1", 0b10), ("2", 0b110), ("5", 0b11_1110)];
    for (units, all) in cases {
        let gate = Meeting::new(all);
        let words = [
            "ruu", "run", "plain.s", "--turns", "50000000", "--units", units,
        ];
        let went = watched(&rt, rt.alloc(), words.as_slice(), PLAIN, &gate)?;
        same_in(&rt, &units, &went.status, &0);
        same_in(&rt, &units, &gate.asked.load(SeqCst), &all);
    }
    Ok(())
}

/// Holds the unit at station 0 until one asks at station 3, or `most` times.
#[derive(Drop)]
struct HoldsForTheThird {
    most: u64,
    asked: AtomicU64,
    third: AtomicU64,
    in_time: AtomicU64,
}

impl Gate for HoldsForTheThird {
    fn held(&self, _unit: u32, station: u32) -> bool {
        if station == 3 {
            self.third.store(1, SeqCst);
        }
        if station != 0 {
            return false;
        }
        let third = self.third.load(SeqCst);
        if third == 0 && self.asked.fetch_add(1, SeqCst) < self.most {
            return true;
        }
        self.in_time.store(third, SeqCst);
        false
    }

    fn seen(&self, _place: u32, _snap: &Snap) {}

    fn counted(&self, _tally: &Tally) {}
}

/// Three stores after the instruction at which the gate holds.
const STORES: &[u8] = b".space 12\nnop\nsw $0,0($0)\nsw $0,4($0)\nsw $0,8($0)\nbreak\n";

#[test]
fn a_run_has_the_queue_that_is_said(rt: HostRuntime) -> Result<(), Fail> {
    for (queue, most, in_time) in [("2", 10_000, 0), ("3", 0xffff_ffff, 1)] {
        let gate = HoldsForTheThird {
            most,
            asked: AtomicU64::new(0),
            third: AtomicU64::new(0),
            in_time: AtomicU64::new(2),
        };
        let words = [
            "ruu",
            "run",
            "stores.s",
            "--turns",
            "50000000",
            "--lsq-size",
            queue,
        ];
        let went = watched(&rt, rt.alloc(), words.as_slice(), STORES, &gate)?;
        same_in(&rt, &queue, &went.status, &0);
        same_in(&rt, &queue, &gate.in_time.load(SeqCst), &in_time);
    }
    Ok(())
}

/// Holds each unit for as long as it asks, and counts the questions.
#[derive(Drop)]
struct Shut {
    asked: AtomicU64,
}

impl Gate for Shut {
    fn held(&self, _unit: u32, _station: u32) -> bool {
        self.asked.fetch_add(1, SeqCst);
        true
    }

    fn seen(&self, _place: u32, _snap: &Snap) {}

    fn counted(&self, _tally: &Tally) {}
}

// The last question is the one at which no turn is left.
#[test]
fn a_unit_has_the_turns_that_are_said(rt: HostRuntime) -> Result<(), Fail> {
    for (turns, most) in [("1", 1), ("100", 100)] {
        let gate = Shut {
            asked: AtomicU64::new(0),
        };
        let words = ["ruu", "run", "plain.s", "--units", "1", "--turns", turns];
        let went = watched(&rt, rt.alloc(), words.as_slice(), PLAIN, &gate)?;
        same_in(&rt, &turns, &went.status, &4);
        assert!(rt; gate.asked.load(SeqCst) <= most, "{turns}");
    }
    Ok(())
}

/// How many branches a run has mispredicted.
fn mends<R: Threads + Wait + Sync>(
    wait: &R,
    alloc: Global,
    predictor: &str,
    listing: &[u8],
) -> Result<u64, Fail> {
    let gate = Stations {
        asked: AtomicU64::new(0),
        told: AtomicU64::new(0),
    };
    let words = [
        "ruu",
        "run",
        "branch.s",
        "--ruu-size",
        "2",
        "--bpred",
        predictor,
    ];
    let went = watched(wait, alloc, words.as_slice(), listing, &gate)?;
    match went.line {
        Line::Tally(tally) => Ok(tally.mends),
        _ => Err(Fail::new("no tally")),
    }
}

/// A branch that is taken.
const FORWARD: &[u8] = b"beq $0,$0,E\nnop\nE: break\n";

/// A branch that is taken four times, and then not.
const BACK: &[u8] = b"addiu $1,$0,5\nL: addiu $1,$1,-1\nbne $1,$0,L\nbreak\n";

/// A branch that is taken twice, and then not.
const TWICE: &[u8] = b"addiu $1,$0,3\nL: addiu $1,$1,-1\nbne $1,$0,L\nbreak\n";

// On two stations a branch is told before the next one is predicted.
#[test]
fn a_run_has_the_predictor_that_is_said(rt: HostRuntime) -> Result<(), Fail> {
    let cases: [(&str, u64, u64); 3] = [("nottaken", 1, 4), ("taken", 0, 1), ("bimod", 1, 2)];
    for (predictor, forward, back) in cases {
        let once = mends(&rt, rt.alloc(), predictor, FORWARD)?;
        same_in(&rt, &predictor, &once, &forward);
        let often = mends(&rt, rt.alloc(), predictor, BACK)?;
        same_in(&rt, &predictor, &often, &back);
    }
    same(&rt, &mends(&rt, rt.alloc(), "nottaken", TWICE)?, &2);
    Ok(())
}
