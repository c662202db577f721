//! Runs in threads.
mod configured;
mod counted;
mod ends;
mod gates;
mod halves;
mod hinted;
mod renewals;
mod rows;
mod together;
mod turned;

use instructions::{Config, End, NotTaken};
use isa::{parse, report_text};
use pool::{Gate, Run, Tally, run};
use std::alloc::Global;
use std::sync::Wait;
use std::test::Fail;
use std::thread::Threads;

/// The sizes of a run, and its limits.
#[derive(Clone, Copy)]
pub(crate) struct Shape {
    pub ring: u64,
    pub units: u64,
    pub places: u64,
    pub first_tag: u64,
    pub limit: u64,
    pub turns: u64,
}

fn plain(units: u64) -> Shape {
    Shape {
        ring: 16,
        units,
        places: 1,
        first_tag: 1,
        limit: 1_000_000,
        turns: 0xffff_ffff,
    }
}

impl Shape {
    fn config(&self) -> Result<Config, Fail> {
        Ok(Config::new(
            self.ring,
            self.ring.min(8),
            self.units,
            self.places,
            self.first_tag,
            self.limit,
            self.turns,
        )?)
    }
}

fn run_listing<R: Threads + Wait + Sync, G: Gate + Sync>(
    wait: &R,
    alloc: Global,
    listing: &[u8],
    shape: &Shape,
    gate: &G,
) -> Result<Run, Fail> {
    let config = shape.config()?;
    let program = parse(alloc, listing)?;
    Ok(run(wait, alloc, &program, &config, NotTaken, gate))
}

// The end of a run of n units, with turns enough for a gate that holds them.
fn end_of_held<R: Threads + Wait + Sync, G: Gate + Sync>(
    wait: &R,
    alloc: Global,
    listing: &[u8],
    units: u64,
    gate: &G,
) -> Result<End, Fail> {
    let shape = Shape {
        turns: 50_000_000,
        ..plain(units)
    };
    match run_listing(wait, alloc, listing, &shape, gate)? {
        Run::Ended(end, _) => Ok(end),
        _ => Err(Fail::from("ended")),
    }
}

// The report of a run that has its end.
fn report(alloc: Global, run: &Run) -> Result<String, Fail> {
    match run {
        Run::Ended(end, _) => Ok(report_text(alloc, end)?),
        Run::LimitReached(end, _) => Ok(report_text(alloc, end)?),
        Run::Refused(_) => Err(Fail::from("refused")),
    }
}

// The tally of a run whose program has ended.
fn tally(run: &Run) -> Result<Tally, Fail> {
    match run {
        Run::Ended(_, tally) => Ok(*tally),
        _ => Err(Fail::from("the program has not ended")),
    }
}
