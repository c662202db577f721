//! A list that grows at its end, and of whose beginning only proofs know.
ghost use Rattle.std.specs.Prelude.{◌≡◌, ◌<◌, ◌≤◌, ◌+◌, ◌^◌, ◌++◌, ◌∷◌, [], IfOk, OnOk, OnErr, IfSome, Some, None, length, slice_get, slice_set, suc};
ghost use Rattle.replay.specs.Tails.{dropped};

use std::alloc::{AllocError, Global};
use std::collections::VecDeque;
use std::marker::Model;
use std::snapshot::Snapshot;

/// The items that were dropped, the last one first. Only the last one takes room.
#[derive(Drop)]
pub enum Past<T> {
    Nothing,
    After(T, Snapshot<Past<T>>),
}

/// A list that grows at its end. Its first items are dropped once nothing asks for them, and only proofs know them then.
#[derive(Drop)]
pub struct Tail<T> {
    from: usize,
    kept: VecDeque<T>,
    past: Past<T>,
}

impl<T> Model for Tail<T> {
    ghost use Rattle.replay.specs.Numbered.{Numbered};

    ghost Value = { Numbered T };

    ghost use Rattle.std.specs.Prelude.{◌≡◌, ◌≤◌, ◌+◌, ◌^◌, ◌++◌, length};
    ghost use Rattle.replay.specs.Tails.{dropped};

    ghost view = { λ t. record { items = dropped t.past ++ t.kept.items; from = t.from } };

    ghost invariant = { λ t. (t.from ≡ length (dropped t.past)) × (t.from + length t.kept.items ≤ 2 ^ 62) };
}

impl<T: Copy + Drop> Tail<T> {
    pub fn new(alloc: Global) -> Tail<T>
        ensures items { result.items ≡ [] }
        ensures from { result.from ≡ 0 }
    {
        Tail {
            from: 0,
            kept: VecDeque::new(alloc),
            past: Past::Nothing,
        }
    }

    /// How many were pushed.
    pub fn len(&self) -> usize
        ensures len { result ≡ length self.now.items }
        ensures small { result ≤ 2 ^ 62 }
    {
        self.from + self.kept.len()
    }

    /// How many of the first items are dropped.
    pub fn first(&self) -> usize
        ensures { result ≡ self.now.from }
    {
        self.from
    }

    /// One item more; no list is so long that its length has no room.
    pub fn push(&mut self, item: T) -> Result<(), AllocError>
        ensures ok { OnOk result (self.new.items ≡ self.old.items ++ item ∷ []) }
        ensures err { OnErr result (self.new.items ≡ self.old.items) }
        ensures from { self.new.from ≡ self.old.from }
    {
        if self.from + self.kept.len() == 1 << 62 {
            return Err(AllocError);
        }
        match self.kept.push_back(item) {
            Ok(()) => Ok(()),
            Err(_) => Err(AllocError),
        }
    }

    /// The first item that is kept is dropped, if there is one.
    pub fn drop_first(&mut self)
        ensures items { self.new.items ≡ self.old.items }
        ensures from { self.old.from < length self.old.items → self.new.from ≡ self.old.from + 1 }
    {
        if let Some(first) = self.kept.pop_front() {
            let before = Snapshot::of(&self.past);
            self.past = Past::After(first, before);
            self.from += 1;
        }
    }

    /// The item at a place, if one is there and is not dropped.
    pub fn get(&self, at: usize) -> Option<T>
        ensures kept { self.now.from ≤ at → result ≡ slice_get self.now.items at }
        ensures gone { at < self.now.from → result ≡ None }
        ensures some { IfSome result (λ item. slice_get self.now.items at ≡ Some item) }
        ensures small { IfSome result (λ _. at < 2 ^ 62) }
    {
        if at < self.from {
            return None;
        }
        self.kept.get(at - self.from).copied()
    }

    /// The item at a place that is not dropped.
    pub fn item(&self, at: usize) -> &T
        requires from { self.now.from ≤ at }
        requires there { at < length self.now.items }
        ensures { slice_get self.now.items at ≡ Some result.now }
    {
        &self.kept[at - self.from]
    }

    /// Another item is at a place.
    pub fn set(&mut self, at: usize, item: T)
        requires from { self.old.from ≤ at }
        requires there { at < length self.old.items }
        ensures items { self.new.items ≡ slice_set self.old.items at item }
        ensures from { self.new.from ≡ self.old.from }
    {
        let place = at - self.from;
        self.kept[place] = item;
    }
}
