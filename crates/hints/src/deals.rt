//! The hints that a thread has put and taken, the rule that ties them to the queue, and the steps on the queue.
use crossbeam_queue::protocol::{Lesson, Outcome, Protocol};
use std::collections::LinkedList;
use std::marker::{Brand, PhantomData};

/// How many stations there are, in the proof alone.
pub trait Ring {
    ghost use Rattle.std.specs.Prelude.{ℕ};

    ghost ring: { ℕ };
}

impl Ring for Brand {
    ghost ring = { 0 };
}

/// The hints that a thread has put and taken, in the proof alone.
pub struct Deal {
    pub put: LinkedList<u32>,
    pub taken: LinkedList<u32>,
}

/// The rule: each hint is a station, and hints are taken in the order in which they were put, each once.
pub struct Below<J> {
    of: PhantomData<J>,
}

impl<J: Ring> Protocol<u32, Deal> for Below<J> {
    ghost use Rattle.std.specs.Prelude.{[]};
    ghost use Rattle.hints.specs.Hinted.{Hinted, deal};

    ghost holds = { Hinted J.ring };

    ghost first = { deal [] [] };
}

/// A hint is put.
pub(crate) struct Puts<J> {
    of: PhantomData<J>,
}

impl<J: Ring> Outcome<u32, Deal> for Puts<J> {
    ghost use Rattle.std.specs.Prelude.{◌≡◌};
    ghost use Rattle.hints.specs.Hinted.{putting};

    ghost then = { λ v x w. w ≡ putting x v };
}

impl<J: Ring> Lesson<u32, Deal> for Puts<J> {
    ghost use Rattle.std.specs.Prelude.{⊤};

    ghost fact = { λ _ _. ⊤ };
}

/// A hint is taken.
pub(crate) struct Takes<J> {
    of: PhantomData<J>,
}

impl<J: Ring> Outcome<u32, Deal> for Takes<J> {
    ghost use Rattle.std.specs.Prelude.{◌≡◌, ◌<◌};
    ghost use Rattle.hints.specs.Hinted.{taking};

    ghost then = { λ v x w. (x < J.ring) × (w ≡ taking x v) };
}

impl<J: Ring> Lesson<u32, Deal> for Takes<J> {
    ghost use Rattle.std.specs.Prelude.{⊤};

    ghost fact = { λ _ _. ⊤ };
}
