//! What a table says of a row.
use events::Event;
use sheets::{Moment, Placed, Sheet};

/// The kinds of events that another one can wait for.
#[derive(Clone, Copy, PartialEq)]
pub(crate) enum Sort {
    Any,
    Let,
    Begin,
    /// What ends the execution: it makes a result or a store's address.
    End,
    Retire,
    Squash,
}

fn ends(event: Event) -> bool {
    matches!(
        event,
        Event::End(..) | Event::Execute(..) | Event::Complete(..) | Event::Load(..)
    )
}

impl Sort {
    /// An event is of this kind.
    pub(crate) fn has(self, placed: &Placed) -> bool {
        match self {
            Sort::Any => true,
            Sort::Let => placed.moment == Moment::Let,
            Sort::Begin => placed.moment == Moment::Begin,
            Sort::End => placed.moment != Moment::Read && ends(placed.event),
            Sort::Retire => placed.moment == Moment::Retire,
            Sort::Squash => matches!(placed.moment, Moment::Recover | Moment::Squash),
        }
    }
}

/// The first event of a kind that a row has.
pub(crate) fn said(sheet: &Sheet, row: usize, sort: Sort) -> Option<Placed> {
    for placed in sheet.events.iter() {
        if placed.row == row && sort.has(placed) {
            return Some(*placed);
        }
    }
    None
}
