//! The queue and what changes it.
ghost use Rattle.std.specs.Prelude.{◌≡◌, ◌<◌, ◌≤◌, [], ◌∷◌, ◌++◌, length, take, slice_get, IfSome, IfNone, OnOk, OnErr};
ghost use Rattle.lsq.specs.Entries.{changed_at, with_address, with_content};

use crate::Entry;
use arrayvec::ArrayVec;
use std::marker::Model;

/// The most that the capacity of a queue can be.
pub const MOST_ENTRIES: usize = 32;

/// The queue holds its capacity.
#[derive(Clone, Copy, Debug, PartialEq)]
pub struct Full;

/// The live loads and stores, the oldest at place 0.
#[derive(Drop)]
pub struct Queue {
    pub(crate) entries: ArrayVec<Entry, MOST_ENTRIES>,
    capacity: usize,
}

impl Model for Queue {
    ghost use Rattle.std.specs.Prelude.{◌≤◌, length};
    ghost use Rattle.lsq.specs.declared.queue.TheConstants.{MOST_ENTRIES};
    ghost use Rattle.lsq.specs.Entries.{HeldEntries};

    ghost Value = { HeldEntries };

    ghost view = { λ q. record { capacity = q.capacity; entries = q.entries.items } };

    ghost invariant = { λ q. (length q.entries.items ≤ q.capacity) × (q.capacity ≤ MOST_ENTRIES) };
}

impl Queue {
    /// An empty queue.
    pub fn new(capacity: usize) -> Self
        requires { capacity ≤ MOST_ENTRIES }
        ensures entries { result.entries ≡ [] }
        ensures capacity { result.capacity ≡ capacity }
    {
        Queue {
            entries: ArrayVec::new(),
            capacity,
        }
    }

    /// How many entries it holds.
    pub fn len(&self) -> usize
        ensures { result ≡ length self.now.entries }
    {
        self.entries.len()
    }

    /// The entry at a place.
    pub fn get(&self, at: usize) -> Option<Entry>
        ensures { result ≡ slice_get self.now.entries at }
    {
        self.entries.as_slice().get(at).copied()
    }

    /// Puts the youngest entry in. A full queue refuses it and stays as it is.
    pub fn push(&mut self, entry: Entry) -> Result<(), Full>
        ensures room { OnOk result (length self.old.entries < self.old.capacity) }
        ensures ok { OnOk result
            (self.new ≡ record self.old { entries = self.old.entries ++ entry ∷ [] }) }
        ensures full { OnErr result (length self.old.entries ≡ self.old.capacity) }
        ensures err { OnErr result (self.new ≡ self.old) }
    {
        if self.len() == self.capacity {
            return Err(Full);
        }
        self.entries.push(entry);
        Ok(())
    }

    /// Keeps the oldest `len` entries, as after a squash. Where there are no more, all stay.
    pub fn cut(&mut self, len: usize)
        ensures { self.new ≡ record self.old { entries = take len self.old.entries } }
    {
        self.entries.truncate(len);
    }

    /// Takes the oldest entry, as at its retirement. The others move down by one place.
    pub fn shift(&mut self) -> Option<Entry>
        ensures some { IfSome result (λ e. self.old.entries ≡ e ∷ self.new.entries) }
        ensures none { IfNone result (self.old.entries ≡ []) }
        ensures empty { IfNone result (self.new.entries ≡ []) }
        ensures kept { self.new.capacity ≡ self.old.capacity }
    {
        self.entries.pop_at(0)
    }

    /// Gives the entry at a place its address.
    pub fn know(&mut self, at: usize, address: u32)
        requires { at < length self.old.entries }
        ensures { self.new ≡
            record self.old { entries = changed_at (with_address address) self.old.entries at } }
    {
        let entries = self.entries.as_mut_slice();
        entries[at].address = Some(address);
    }

    /// Gives the store at a place its data.
    pub fn give(&mut self, at: usize, content: u32)
        requires { at < length self.old.entries }
        ensures { self.new ≡
            record self.old { entries = changed_at (with_content content) self.old.entries at } }
    {
        let entries = self.entries.as_mut_slice();
        entries[at].content = Some(content);
    }
}
