//! Runs whose tags are spent again and again.
use super::{Shape, plain, report, run_listing, tally};
use crate::same::same;
use instructions::NotTaken;
use isa::parse;
use pool::{Gate, Open, Run, Tally, run};
use snapshots::Snap;
use std::alloc::Global;
use std::process::Abort;
use std::sync::Wait;
use std::sync::atomic::AtomicU64;
use std::sync::atomic::Ordering::SeqCst;
use std::test::*;
use std::thread::Threads;

// Two stations, with two tags each.
fn scarce(units: u64) -> Shape {
    Shape {
        ring: 2,
        first_tag: 268_435_454,
        turns: 50_000_000,
        ..plain(units)
    }
}

// Each listing has its report, and at least and at most these numbers of renewals.
fn check<R: Threads + Wait + Sync + Abort>(
    rt: &R,
    alloc: Global,
    listing: &str,
    expected: &str,
    least: u64,
    most: u64,
) -> Result<(), Fail> {
    for units in [1, 4] {
        let run = run_listing(rt, alloc, listing.as_bytes(), &scarce(units), &Open)?;
        let text = report(alloc, &run)?;
        assert!(*rt; text.as_bytes() == expected.as_bytes(), "{text}");
        let tally = tally(&run)?;
        assert!(*rt;
            least <= tally.renewals && tally.renewals <= most,
            "{tally:?}"
        );
    }
    Ok(())
}

#[test]
fn a_run_goes_on_behind_each_renewal(rt: HostRuntime) -> Result<(), Fail> {
    let rows: [(&str, &str, u64, u64); 3] = [
        (
            "addiu $1,$0,5\naddu $2,$1,$1\nbreak\n",
            "stop break\ncount 2\npc 0x00400008\nr1 0x00000005\nr2 0x0000000a\n",
            1,
            1,
        ),
        // a loop that is mispredicted
        (
            "addiu $1,$0,3\nL: addiu $1,$1,-1\nbne $1,$0,L\nbreak\n",
            "stop break\ncount 7\npc 0x0040000c\n",
            3,
            20,
        ),
        // a renewal between two halves
        (
            "nop\nmult $0,$0\nbreak\n",
            "stop break\ncount 2\npc 0x00400008\n",
            1,
            1,
        ),
    ];
    for (listing, expected, least, most) in rows {
        check(&rt, rt.alloc(), listing, expected, least, most)?;
    }
    Ok(())
}

// How many snapshots were told, and of how many of these n was less than before.
#[derive(Drop)]
struct Falls {
    told: AtomicU64,
    last: AtomicU64,
    fell: AtomicU64,
}

impl Gate for Falls {
    fn held(&self, _unit: u32, _station: u32) -> bool {
        false
    }

    fn seen(&self, _place: u32, snap: &Snap) {
        self.told.fetch_add(1, SeqCst);
        if snap.n < self.last.swap(snap.n, SeqCst) {
            self.fell.fetch_add(1, SeqCst);
        }
    }

    fn counted(&self, _tally: &Tally) {}
}

#[test]
fn snapshots_go_on_over_renewals(rt: HostRuntime) -> Result<(), Fail> {
    let listing = b"addiu $1,$0,300\nL: addiu $1,$1,-1\nbne $1,$0,L\nbreak\n";
    let gate = Falls {
        told: AtomicU64::new(0),
        last: AtomicU64::new(0),
        fell: AtomicU64::new(0),
    };
    let run = run_listing(&rt, rt.alloc(), listing, &scarce(2), &gate)?;
    let Run::Ended(end, tally) = run else {
        return Err(Fail::from("no end"));
    };
    same(&rt, &end.n, &601);
    same(&rt, &gate.last.load(SeqCst), &601);
    same(&rt, &gate.fell.load(SeqCst), &0);
    assert!(rt; 0 < gate.told.load(SeqCst) && 3 <= tally.renewals);
    Ok(())
}

#[test]
fn a_run_that_is_refused_memory_renews_at_the_next_try(rt: HostRuntime) -> Result<(), Fail> {
    let listing = b"addiu $1,$0,5\naddu $2,$1,$1\nbreak\n";
    let config = scarce(1).config()?;
    let program = match parse(rt.alloc(), listing) {
        Ok(program) => program,
        Err(_) => parse(rt.alloc(), listing)?,
    };
    let run = match run(&rt, rt.alloc(), &program, &config, NotTaken, &Open) {
        Run::Refused(_) => run(&rt, rt.alloc(), &program, &config, NotTaken, &Open),
        other => other,
    };
    let Run::Ended(end, tally) = run else {
        return Err(Fail::from("no end"));
    };
    same(&rt, &end.n, &2);
    same(&rt, &tally.renewals, &1);
    Ok(())
}
