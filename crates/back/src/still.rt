//! A back that leaves its core, and one that enters another.
ghost use Rattle.std.specs.Prelude.{◌≡◌, None};
ghost use Rattle.inorder.specs.Callers.{GoesOn as HasNoStop};
ghost use Rattle.back.specs.Backs.{back_of, committed_in, back_state, unit_in};
ghost use Rattle.back.specs.Stills.{GoesOnForBack, head_at, still_of};

use crate::backs::Back;
use inorder::Committed;
use snapshots::{OfProgram, Publisher};
use station::{BackSeat, what_is_seen_is_legal};
use std::marker::Model;
use std::snapshot::Snapshot;

/// A back without a core: the memory and the committed registers, pc and count, what waits for LO between two
/// halves, and the publisher, so that snappers and marks stay good. It is no `Drop`: it enters a core again.
pub struct BackStill<J: OfProgram> {
    state: Committed,
    // what a first half has made for LO
    waits: Option<u32>,
    head: usize,
    publisher: Publisher<J>,
    // the seat that it gave back
    given_back: Snapshot<BackSeat>,
}

impl<J: OfProgram> Model for BackStill<J> {
    ghost use Rattle.std.specs.Prelude.{None};
    ghost use Rattle.back.specs.Kept.{BackIsKept};
    ghost use Rattle.back.specs.Stills.{TheStillBack};

    ghost Value = { TheStillBack };

    ghost view = { λ b.
        record {
          core = b.given_back.value.core;
          seen = b.given_back.value.seen;
          shown = b.publisher;
        } };

    ghost invariant = { λ b.
        BackIsKept J.program b.given_back.value b.state b.waits b.head None b.publisher };
}

impl<J: OfProgram> Back<J> {
    /// The back leaves its core, and gives its seat back. It has not ended. Tenants may be in flight, and between
    /// the two halves of an instruction what the first has made waits on.
    pub fn leave(self) -> (BackSeat, BackStill<J>)
        requires not_ended { self.ended ≡ None }
        ensures core { result.0.core ≡ self.core }
        ensures by { result.0.by ≡ self.by }
        ensures seen { result.0.seen ≡ self.seen }
        ensures woken { result.0.woken ≡ self.woken }
        ensures no_stop { HasNoStop (unit_in self.core self.seen) }
        ensures still { result.1 ≡ still_of self }
        ensures goes_on { GoesOnForBack result.1.core result.1.seen result.0 }
        ensures head { head_at result.0.core result.0.seen ≡ head_at result.1.core result.1.seen }
    {
        let Back {
            seat,
            committed,
            low,
            head,
            ended: _,
            publisher,
        } = self;
        let given_back = Snapshot::of(&seat);
        let still = BackStill {
            state: committed,
            waits: low,
            head,
            publisher,
            given_back,
        };
        (seat, still)
    }
}

impl<J: OfProgram> BackStill<J> {
    // Enters the core of a seat whose oldest live tenant, if there is one, stands at this station.
    fn enter_at(self, seat: BackSeat, head: usize) -> Back<J>
        requires goes_on { GoesOnForBack self.core self.seen seat }
        requires head { head_at seat.core seat.seen ≡ head }
        ensures back { result ≡ back_of seat None self.shown }
        ensures state { back_state result ≡ committed_in self.core self.seen }
    {
        what_is_seen_is_legal(&seat);
        let BackStill {
            state,
            waits,
            head: _,
            publisher,
            given_back: _,
        } = self;
        Back {
            seat,
            committed: state,
            low: waits,
            head,
            ended: None,
            publisher,
        }
    }

    /// Enters a renewed core, where the oldest live tenant stands at station 0. Registers, memory, pc and count are
    /// those with which it left, and the last snapshot that it showed is the last one still.
    pub fn enter(self, seat: BackSeat) -> Back<J>
        requires goes_on { GoesOnForBack self.core self.seen seat }
        requires first { head_at seat.core seat.seen ≡ 0 }
        ensures back { result ≡ back_of seat None self.shown }
        ensures state { back_state result ≡ committed_in self.core self.seen }
    {
        self.enter_at(seat, 0)
    }

    /// Goes on at the core that it left, with the seat that a refused renewal gave back. For a renewed core call `enter`.
    pub fn enter_again(self, seat: BackSeat) -> Back<J>
        requires goes_on { GoesOnForBack self.core self.seen seat }
        requires head { head_at seat.core seat.seen ≡ head_at self.core self.seen }
        ensures back { result ≡ back_of seat None self.shown }
        ensures state { back_state result ≡ committed_in self.core self.seen }
    {
        let head = self.head;
        self.enter_at(seat, head)
    }
}
