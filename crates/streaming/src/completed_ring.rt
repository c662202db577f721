//! Completed instructions in a ring of slots, and the stores among them.
ghost use Rattle.std.specs.Prelude.{◌≡◌, ◌<◌, ◌≤◌, [], ◌∷◌, ◌-◌, ◌++◌, length, false, drop, slice_get, IfSome, IsTrue, Some};
ghost use Rattle.std.specs.Int.{IsPowerOfTwo};
ghost use Rattle.streaming.specs.Slots.{slot_in};

use arrayvec::ArrayVec;
use instructions::Half;
use lsq::Entry;
use one_thread::Leaves;
use std::marker::Model;

/// A completed instruction. With its program this is all that its station holds.
#[derive(Clone, Copy)]
pub struct Completed {
    pub pc: u32,
    pub half: Half,
    pub leaves: Leaves,
    /// The next pc that was predicted.
    pub predicted: u32,
    /// Where it has gone on.
    pub next: u32,
    /// What it has made for its register, or where it stores; 0 for a jump that does not link.
    pub value: u32,
    /// What its register held before; of a store, what it writes.
    pub kept: u32,
}

/// Completed instructions by their stations, the oldest first, and the entries of the stores among them.
#[derive(Drop)]
pub struct CompletedRing {
    slots: [Completed; 32],
    // the last station: there is a power of two of them, so that it is a mask that goes around
    last: usize,
    // the station of the oldest
    oldest: usize,
    len: usize,
    // the entries of its stores, after some that have left
    stores: ArrayVec<Entry, 32>,
    // how many of them have left
    past: usize,
}

impl Model for CompletedRing {
    ghost use Rattle.std.specs.Prelude.{◌≤◌, ◌+◌, drop, length, take};
    ghost use Rattle.streaming.specs.CompletedRing.{Contents, IsRing};
    ghost use Rattle.streaming.specs.Slots.{ring_of};

    ghost Value = { Contents };

    ghost view = { λ r. record {
      completed = ring_of (take (r.last + 1) r.slots) r.oldest r.len;
      stores = drop r.past r.stores.items;
      oldest = r.oldest;
      size = r.last + 1;
    } };

    ghost invariant = { λ r. IsRing r.slots (r.last + 1) r.last r.oldest r.len × (r.past ≤ length r.stores.items) };
}

// The content of a slot that nobody has used.
fn unused() -> Completed {
    Completed {
        pc: 0,
        half: Half::Low,
        leaves: Leaves::Any,
        predicted: 0,
        next: 0,
        value: 0,
        kept: 0,
    }
}

// Whether a number of stations is a power of two.
fn is_power(size: usize) -> bool
    ensures { IsTrue result → IsPowerOfTwo size }
{
    matches!(size, 2 | 4 | 8 | 16 | 32)
}

// The entries without the first `past`: each that leaves moves those after it, so `past` of them leave at once.
#[cold]
#[inline(never)]
fn forget(stores: &mut ArrayVec<Entry, 32>, past: usize)
    requires { past ≤ length stores.old.items }
    ensures { stores.new.items ≡ drop past stores.old.items }
{
    let mut live = ArrayVec::new();
    match live.try_extend_from_slice(&stores.as_slice()[past..]) {
        Ok(()) => *stores = live,
        Err(_) => {}
    }
}

impl CompletedRing {
    /// A ring of n stations without an instruction; the next enters this one. There is none where the stations are no
    /// power of two; those of a `Config` are.
    #[inline(always)]
    pub fn new(size: usize, oldest: usize) -> Option<CompletedRing>
        requires inside { oldest < size }
        requires small { size ≤ 32 }
        ensures completed { IfSome result (λ ring. ring.completed ≡ []) }
        ensures stores { IfSome result (λ ring. ring.stores ≡ []) }
        ensures oldest { IfSome result (λ ring. ring.oldest ≡ oldest) }
        ensures size { IfSome result (λ ring. ring.size ≡ size) }
    {
        if !is_power(size) {
            return None;
        }
        Some(CompletedRing {
            slots: [unused(); 32],
            last: size - 1,
            oldest,
            len: 0,
            stores: ArrayVec::new(),
            past: 0,
        })
    }

    /// How many instructions it holds.
    pub fn len(&self) -> usize
        ensures value { result ≡ length self.now.completed }
        ensures most { result ≤ 32 }
    {
        self.len
    }

    /// The stores, the oldest first.
    pub fn stores(&self) -> &[Entry]
        ensures { result.now ≡ self.now.stores }
    {
        &self.stores.as_slice()[self.past..]
    }

    /// The station of the oldest instruction; where there is none, of the next.
    #[inline(always)]
    pub fn station(&self) -> usize
        ensures { result ≡ self.now.oldest }
    {
        self.oldest
    }

    /// The station of the instruction at `i`, or of the next.
    #[inline(always)]
    pub fn station_at(&self, i: usize) -> usize
        requires { i ≤ length self.now.completed }
        ensures value { result ≡ slot_in self.now.size self.now.oldest i }
        ensures small { result < 32 }
    {
        (self.oldest + i) & self.last
    }

    /// The instruction at `i`.
    pub fn get(&self, i: usize) -> Completed
        requires { i < length self.now.completed }
        ensures { slice_get self.now.completed i ≡ Some result }
    {
        self.slots[self.station_at(i)]
    }

    /// Whether a load has joined among the instructions from `i` on.
    #[cold]
    #[inline(never)]
    pub fn has_load_behind(&self, i: usize) -> bool {
        (i..self.len).any(|at| matches!(
            self.slots[(self.oldest + at) & self.last].leaves,
            Leaves::Load
        ))
    }

    /// The oldest instruction.
    #[inline(always)]
    pub fn oldest(&self) -> &Completed
        requires { 0 < length self.now.completed }
        ensures { slice_get self.now.completed 0 ≡ Some result.now }
    {
        &self.slots[self.oldest]
    }

    /// An instruction joins, in its station.
    #[inline(always)]
    pub fn push(&mut self, station: usize, completed: Completed)
        requires room { length self.old.completed < self.old.size }
        requires small { station < 32 }
        requires station { station ≡
            slot_in self.old.size self.old.oldest (length self.old.completed) }
        ensures { self.new ≡
            record self.old { completed = self.old.completed ++ completed ∷ [] } }
    {
        self.slots[station] = completed;
        self.len += 1;
    }

    /// The entry of a store joins.
    #[inline(always)]
    pub fn push_store(&mut self, entry: Entry)
        requires { length self.old.stores < 32 }
        ensures { self.new ≡ record self.old { stores = self.old.stores ++ entry ∷ [] } }
    {
        if self.stores.len() == 32 {
            forget(&mut self.stores, self.past);
            self.past = 0;
        }
        self.stores.push(entry);
    }

    /// The oldest instruction leaves.
    #[inline(always)]
    pub fn shift(&mut self)
        requires { 0 < length self.old.completed }
        ensures { self.new ≡ record self.old {
          completed = drop 1 self.old.completed;
          oldest = slot_in self.old.size self.old.oldest 1;
        } }
    {
        self.oldest = (self.oldest + 1) & self.last;
        self.len -= 1;
    }

    /// The entry of the oldest store leaves.
    #[inline(always)]
    pub fn shift_store(&mut self)
        ensures { self.new ≡ record self.old { stores = drop 1 self.old.stores } }
    {
        if self.past < self.stores.len() {
            self.past += 1;
        }
    }
}
