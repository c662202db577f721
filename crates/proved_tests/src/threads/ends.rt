//! How runs end.
use super::{Shape, plain, run_listing};
use crate::same::same;
use pool::{Gate, Open, Run, Tally};
use snapshots::Snap;
use std::process::Abort;
use std::test::*;

const LISTING: &[u8] = b"addiu $1,$0,5\naddu $2,$1,$1\nbreak\n";

const LOOP: &[u8] = b"ori $1,$0,300\nL: addiu $1,$1,-1\nbne $1,$0,L\nbreak\n";

// Holds each unit for as long as it asks.
#[derive(Drop)]
struct Shut;

impl Gate for Shut {
    fn held(&self, _unit: u32, _station: u32) -> bool {
        true
    }

    fn seen(&self, _place: u32, _snap: &Snap) {}

    fn counted(&self, _tally: &Tally) {}
}

// The limit is that of instructions, or of turns, of which each instruction takes one.
#[test]
fn a_run_ends_at_its_limit_or_without_turns(rt: HostRuntime) -> Result<(), Fail> {
    for (limit, turns) in [
        (2, 1_000_000_000),
        (1_000_000, 3),
        (1_000_000, 1_000_000_000),
    ] {
        let shape = Shape {
            limit,
            turns,
            ..plain(2)
        };
        match run_listing(&rt, rt.alloc(), LOOP, &shape, &Open)? {
            Run::LimitReached(end, _) if turns == 3 => assert!(rt; end.n <= 3),
            Run::LimitReached(end, _) => same(&rt, &(end.n, limit), &(2, 2)),
            Run::Ended(end, _) => same(
                &rt,
                &(end.n, limit, turns),
                &(601, 1_000_000, 1_000_000_000),
            ),
            Run::Refused(_) => return Err(Fail::from("refused")),
        }
    }
    Ok(())
}

// Each unit finishes no more than the one that it was held at.
#[test]
fn units_that_are_always_held_use_up_their_turns(rt: HostRuntime) -> Result<(), Fail> {
    let shape = Shape {
        turns: 1_000,
        ..plain(2)
    };
    let run = run_listing(&rt, rt.alloc(), LISTING, &shape, &Shut)?;
    let Run::LimitReached(_, tally) = run else {
        return Err(Fail::from("limit"));
    };
    assert!(rt; tally.claims <= 2);
    assert!(rt; tally.finishes <= tally.claims);
    Ok(())
}
