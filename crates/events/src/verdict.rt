//! A verdict on a log.
use crate::item::Item;
use crate::unread::Unread;
use crate::why::Why;

/// An event that is no legal step.
#[derive(Clone, Copy)]
pub struct Refused {
    pub item: Item,
    pub why: Why,
}

/// A verdict on a log.
#[derive(Clone, Copy)]
pub enum Verdict {
    /// Each line is read, and its event is legal.
    Legal,
    /// This event is refused, and those before it are legal.
    Refused(Refused),
    /// The line of this number is not read, and the events before it are legal.
    Unread(u64, Unread),
}
