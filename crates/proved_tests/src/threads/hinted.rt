//! Units find work by hints.
use super::{Shape, plain, report, run_listing, tally};
use pool::{Gate, Open, Tally};
use snapshots::Snap;
use std::alloc::Global;
use std::process::Abort;
use std::sync::Wait;
use std::sync::atomic::AtomicU64;
use std::sync::atomic::Ordering::SeqCst;
use std::test::*;
use std::thread::Threads;

const LOOP: &[u8] = b"ori $1,$0,50000\nL: addiu $1,$1,-1\nbne $1,$0,L\nbreak\n";

const ENDED: &str = "stop break\ncount 100001\npc 0x0040000c\n";

#[test]
fn a_long_loop_is_hinted(rt: HostRuntime) -> Result<(), Fail> {
    let run = run_listing(&rt, rt.alloc(), LOOP, &plain(1), &Open)?;
    let text = report(rt.alloc(), &run)?;
    let tally = tally(&run)?;
    assert!(rt; text.as_bytes() == ENDED.as_bytes());
    assert!(rt; 1 <= tally.hints && tally.hints <= tally.claims);
    Ok(())
}

/// Holds who asks at station 0 until another asks at station 7, and that one until station 6 is asked for.
#[derive(Drop)]
struct Chain {
    middle: AtomicU64,
    ahead: AtomicU64,
}

impl Gate for Chain {
    fn held(&self, _unit: u32, station: u32) -> bool {
        match station {
            0 => self.ahead.load(SeqCst) == 0,
            6 => {
                self.middle.store(1, SeqCst);
                false
            }
            7 => {
                self.ahead.store(1, SeqCst);
                self.middle.load(SeqCst) == 0
            }
            _ => false,
        }
    }

    fn seen(&self, _place: u32, _snap: &Snap) {}

    fn counted(&self, _tally: &Tally) {}
}

// How many claims came as a hint where stations 1 to 6 wait, and their hints of the dispatch thread are used up before
// what they wait for is there.
fn hints_of<R: Threads + Wait + Sync>(rt: &R, alloc: Global, listing: &[u8]) -> Result<u64, Fail> {
    let gate = Chain {
        middle: AtomicU64::new(0),
        ahead: AtomicU64::new(0),
    };
    let shape = Shape {
        turns: 50_000_000,
        ..plain(2)
    };
    let run = run_listing(rt, alloc, listing, &shape, &gate)?;
    Ok(tally(&run)?.hints)
}

// Of nine claims three are of stations that wait for nobody.
#[test]
fn a_unit_hints_whom_it_has_woken(rt: HostRuntime) -> Result<(), Fail> {
    let listing = b"addiu $1,$0,1\naddiu $1,$1,1\naddiu $1,$1,1\naddiu $1,$1,1\naddiu $1,$1,1\n\
        addiu $1,$1,1\naddiu $1,$1,1\naddiu $2,$0,5\nbreak\n";
    let hints = hints_of(&rt, rt.alloc(), listing)?;
    assert!(rt; 6 <= hints && hints <= 9, "{hints}");
    Ok(())
}

// A unit may find a station in ring order before its hint is put, so that one run may show few hints.
#[test]
fn the_commit_thread_hints_whom_a_load_has_woken(rt: HostRuntime) -> Result<(), Fail> {
    let listing = b".space 4\nlw $1,0($0)\naddiu $2,$1,1\naddiu $3,$1,1\naddiu $4,$1,1\n\
        addiu $5,$1,1\naddiu $6,$1,1\naddiu $7,$1,1\naddiu $8,$0,5\nbreak\n";
    for _ in 0..100 {
        if 4 <= hints_of(&rt, rt.alloc(), listing)? {
            return Ok(());
        }
    }
    Err(Fail::from("no hint"))
}
