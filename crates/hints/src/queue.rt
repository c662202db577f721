//! The queue, and every call on it.
ghost use Rattle.std.specs.Prelude.{◌≡◌, ◌<◌, ◌≤◌, IfNone, IfOk, IfSome, IsFalse, IsTrue};
ghost use Rattle.hints.specs.Hinted.{HasAskedForHint, HasOffered, IsEndOf, fresh, putting, taking};

use crate::deals::{Below, Deal, Puts, Ring, Takes};
use crate::hinter::Hinter;
use crossbeam_queue::RuledArrayQueue;
use std::alloc::{AllocError, Global};
use std::marker::Model;
use std::sync::Wait;

/// A queue of hints, for twice as many as there are stations. Contracts see which queue it is, and how
/// many stations there are.
#[derive(Drop)]
pub struct Hints<J: Ring> {
    queue: RuledArrayQueue<u32, Deal, Below<J>>,
    ring: usize,
}

impl<J: Ring> Model for Hints<J> {
    ghost use Rattle.std.specs.Prelude.{◌≡◌, ◌*◌};
    ghost use Rattle.crossbeam_queue.specs.Passes.{ruled_capacity};
    ghost use Rattle.hints.specs.Hinted.{TheHints};

    ghost Value = { TheHints };

    ghost view = { λ h. record { id = h.queue.table.shared.table_id; ring = h.ring } };

    ghost invariant = { λ h. (h.ring ≡ J.ring) × (ruled_capacity h.queue ≡ 2 * h.ring) };
}

impl<J: Ring> Hints<J> {
    /// A queue for a ring of n stations, with no hint.
    pub fn new(alloc: Global, ring: usize) -> Result<Hints<J>, AllocError>
        requires some { 0 < ring }
        requires most { ring ≤ 32 }
        requires ring { ring ≡ J.ring }
        ensures { IfOk result (λ hints. hints.ring ≡ ring) }
    {
        let (queue, _first) = RuledArrayQueue::ruled(alloc, 2 * ring)?;
        Ok(Hints { queue, ring })
    }

    /// A new thread's end of the queue, which has put and taken nothing.
    pub fn hinter(&self) -> Hinter
        ensures { result ≡ fresh self.now }
    {
        Hinter {
            pass: self.queue.pass(),
            offered: 0,
            asked: 0,
        }
    }

    /// Puts a hint after all others. False where it is dropped: the queue was full.
    pub fn push<R: Wait>(&self, wait: &R, hinter: &mut Hinter, station: u32) -> bool
        requires of { IsEndOf self.now hinter.old }
        requires station { station < self.now.ring }
        ensures of { IsEndOf self.now hinter.new }
        ensures put { IsTrue result → hinter.new.deal ≡ putting station hinter.old.deal }
        ensures dropped { IsFalse result → hinter.new.deal ≡ hinter.old.deal }
        ensures offered { HasOffered hinter.old hinter.new }
    {
        hinter.offered = hinter.offered.wrapping_add(1);
        self.queue
            .push_as::<Puts<J>, R>(wait, &mut hinter.pass, station)
            .is_ok()
    }

    /// Takes the oldest hint, if there is one. The call looks first where that would stand, and then whether there is
    /// none: so it reads no word that those who put hints write, but the oldest hint's own. At an empty queue the
    /// call only looks.
    pub fn pop<R: Wait>(&self, wait: &R, hinter: &mut Hinter) -> Option<u32>
        requires of { IsEndOf self.now hinter.old }
        ensures of { IsEndOf self.now hinter.new }
        ensures station { IfSome result (λ station. station < self.now.ring) }
        ensures taken { IfSome result (λ station.
            hinter.new.deal ≡ taking station hinter.old.deal) }
        ensures kept { IfNone result (hinter.new.deal ≡ hinter.old.deal) }
        ensures asked { HasAskedForHint hinter.old hinter.new }
    {
        hinter.asked = hinter.asked.wrapping_add(1);
        let pass = &mut hinter.pass;
        let oldest = self.queue.try_pop_as::<Takes<J>>(pass);
        if oldest.is_some() {
            return oldest;
        }
        if self.queue.is_empty_as::<Takes<J>>(pass) {
            return None;
        }
        self.queue.pop_as::<Takes<J>, R>(wait, pass)
    }
}
