//! A log of the format Kanata, version 0004, which the pipeline viewer Konata opens. Its cycles are turns, and its
//! identifiers are positions.

use crate::event::{Event, Way};
use crate::source::Source;
use isa::Hexadecimal;
use one_thread::Stage;
use std::alloc::{AllocError, Global};

/// The first lines of a log.
pub(crate) const HEAD: &str = "Kanata\t0004\nC=\t0\n";

/// The lines of a turn at which these events happened.
pub(crate) fn turn_text(
    alloc: Global,
    source: &Source<'_>,
    events: &[Event],
) -> Result<String, AllocError> {
    let mut out = format!(in alloc; "C\t1\n")?;
    for event in events.iter() {
        push_event(alloc, &mut out, source, event)?;
    }
    Ok(out)
}

fn push_event(
    alloc: Global,
    out: &mut String,
    source: &Source<'_>,
    event: &Event,
) -> Result<(), AllocError> {
    match event {
        Event::Let { row, first, second } => {
            let (at, pc) = (row.position, Hexadecimal(row.station.pc));
            let instr = source.text_of(alloc, &row.station)?;
            write!(
                out,
                "I\t{at}\t{at}\t0\nL\t{at}\t0\t{pc} {instr}\nS\t{at}\t0\tDs\n"
            )?;
            push_wait(out, at, *first)?;
            push_wait(out, at, *second)
        }
        Event::Moved { position, from, to } => {
            let (from, to) = (stage_text(*from), stage_text(*to));
            write!(out, "E\t{position}\t0\t{from}\nS\t{position}\t0\t{to}\n")
        }
        Event::Blocked { position, store } => {
            write!(out, "L\t{position}\t1\twaits for the store {store}\n")
        }
        Event::Left { row, way } => {
            let at = row.position;
            match way {
                Way::Retired(before) => write!(out, "R\t{at}\t{before}\t0\n"),
                Way::Squashed => write!(out, "R\t{at}\t0\t1\n"),
            }
        }
    }
}

fn push_wait(out: &mut String, position: u64, producer: Option<u64>) -> Result<(), AllocError> {
    match producer {
        None => Ok(()),
        Some(producer) => write!(out, "W\t{position}\t{producer}\t0\n"),
    }
}

fn stage_text(stage: Stage) -> &'static str {
    match stage {
        Stage::Open => "Ds",
        Stage::Addr(_) => "Ad",
        Stage::Done => "Cm",
        Stage::Miss(_) => "Ms",
        Stage::Stops(_) => "St",
    }
}
