//! The order of events that have cycles.
use crate::placed::{Moment, Placed};
use events::Event;
use std::alloc::{AllocError, Global};

/// The order of the events of one cycle.
#[derive(Clone, Copy)]
pub enum Within {
    /// No event sees another one of its cycle: what is broadcast is used from the next cycle on.
    Strict,
    /// Results, and stations that become free, are seen in their cycle.
    Bypass,
    /// As they stand in the file.
    File,
}

impl Within {
    /// The place of an event among those of its cycle.
    pub fn rank(self, moment: Moment) -> u32 {
        match self {
            Within::Strict => strict_rank(moment),
            Within::Bypass => bypass_rank(moment),
            Within::File => file_rank(moment),
        }
    }
}

fn strict_rank(moment: Moment) -> u32 {
    match moment {
        Moment::Begin => 0,
        Moment::Let => 1,
        Moment::Recover => 2,
        Moment::Retire => 3,
        Moment::Read => 4,
        Moment::End | Moment::EndAtOnce => 5,
        Moment::Squash => 6,
    }
}

fn bypass_rank(moment: Moment) -> u32 {
    match moment {
        Moment::Recover => 0,
        Moment::Retire => 1,
        Moment::End => 2,
        Moment::Squash => 3,
        Moment::Read => 4,
        Moment::Begin => 5,
        Moment::EndAtOnce => 6,
        Moment::Let => 7,
    }
}

fn file_rank(moment: Moment) -> u32 {
    match moment {
        Moment::Recover => 0,
        Moment::Squash => 2,
        _ => 1,
    }
}

// Rows in order, but squashes the youngest first.
fn row_order(placed: &Placed) -> usize {
    match placed.moment {
        Moment::Recover | Moment::Squash => usize::MAX - placed.row,
        _ => placed.row,
    }
}

/// The order of an event among those of its cycle.
pub fn order_within(within: Within, placed: &Placed) -> (u32, usize) {
    (within.rank(placed.moment), row_order(placed))
}

// The events at places, which come with keys.
fn picked<K>(
    alloc: Global,
    events: &[Placed],
    keys: &[(K, usize)],
) -> Result<Vec<Placed>, AllocError> {
    let mut out = Vec::new(alloc);
    for (_, at) in keys {
        if let Some(placed) = events.get(*at) {
            out.push(*placed)?;
        }
    }
    Ok(out)
}

/// The events in the order of their cycles.
pub(crate) fn in_order(
    alloc: Global,
    events: &[Placed],
    within: Within,
) -> Result<Vec<Placed>, AllocError> {
    let mut keys = Vec::new(alloc);
    for (at, placed) in events.iter().enumerate() {
        let (rank, row) = order_within(within, placed);
        keys.push(((placed.place.cycle, rank, row), at))?;
    }
    keys.sort()?;
    picked(alloc, events, keys.as_slice())
}

/// The events as they stand, but squashes that stand together the youngest first.
pub(crate) fn youngest_first(alloc: Global, events: &[Placed]) -> Result<Vec<Placed>, AllocError> {
    let mut keys = Vec::new(alloc);
    let mut group = 0usize;
    for (at, placed) in events.iter().enumerate() {
        match placed.event {
            Event::Squash(Some(who)) => keys.push(((group, usize::MAX - who), at))?,
            _ => {
                group = at.saturating_add(1);
                keys.push(((at, 0), at))?;
            }
        }
    }
    keys.sort()?;
    picked(alloc, events, keys.as_slice())
}
