//! A seat in the middle of a call, and the ways to step: one load, store, swap or compare-exchange.
ghost use Rattle.std.specs.Prelude.{◌≡◌, ◌==◌};
ghost use prog.Atomic.{either};
ghost use Rattle.station.specs.Calls.{IsCall, MayStepAt, TakesStep, call_of};

use crate::cores::Core;
use crate::seat::Part;
use atomic_table::Seat;
use ruu_words::Place;
use ruu_words::rule::View;
use std::marker::{Brand, Model, PhantomData};

/// A core, and a seat that is lent to a call.
#[derive(Drop)]
pub(crate) struct Call<'a, P: Part> {
    pub(crate) core: &'a Core,
    pub(crate) seat: &'a mut Seat<u8, View>,
    pub(crate) part: PhantomData<P>,
}

impl<'a, P: Part> Model for Call<'a, P> {
    ghost use Rattle.station.specs.Calls.{IsCall, TheCall, call_of};

    ghost Value = { TheCall };

    ghost view = { λ s. call_of s.core.now s.seat.now.me.0 s.seat.ghost_name };

    ghost invariant = { λ s. IsCall s.core.now P.role s.seat.now.table_id s.seat.now.me };
}

/// The kind of a step, of the number found (at a store, the number stored).
pub(crate) trait Telling {
    ghost use Rattle.std.specs.Prelude.{ℕ};
    ghost use Rattle.station.specs.Calls.{StepKind};

    ghost kind: { ℕ → StepKind };
}

impl Telling for Brand {
    ghost use Rattle.std.specs.Prelude.{◌≡◌, []};

    ghost kind = { λ n P C h d events. events ≡ [] };
}

// The contract of a step is picked where the step is made, from the arguments alone. So each of these
// functions takes its place and, in `about`, all else that the contract names, which no code reads.
impl<'a, P: Part> Call<'a, P> {
    pub(crate) fn of(core: &'a Core, seat: &'a mut Seat<u8, View>) -> Call<'a, P>
        requires { IsCall core.now P.role seat.old.table_id seat.old.me }
        ensures { result ≡ call_of core.now seat.old.me.0 seat.entry.ghost_name }
    {
        Call {
            core,
            seat,
            part: PhantomData,
        }
    }

    pub(crate) fn load<K: Telling, A: Copy>(&mut self, place: Place, about: A) -> u64
        requires { MayStepAt P.role self.old place (λ n. n) K.kind }
        ensures { TakesStep self.old self.new (K.kind result) }
    {
        let _ = about;
        let core = self.core;
        let at = place.index(core.ring);
        core.table.shared.load::<Brand>(self.seat, at)
    }

    pub(crate) fn store<K: Telling, A: Copy>(&mut self, place: Place, new: u64, about: A)
        requires { MayStepAt P.role self.old place (λ _. new) (λ _. K.kind new) }
        ensures { TakesStep self.old self.new (K.kind new) }
    {
        let _ = about;
        let core = self.core;
        let at = place.index(core.ring);
        core.table.shared.store::<Brand>(self.seat, at, new);
    }

    pub(crate) fn swap<K: Telling, A: Copy>(&mut self, place: Place, new: u64, about: A) -> u64
        requires { MayStepAt P.role self.old place (λ _. new) K.kind }
        ensures { TakesStep self.old self.new (K.kind result) }
    {
        let _ = about;
        let core = self.core;
        let at = place.index(core.ring);
        core.table.shared.swap::<Brand>(self.seat, at, new)
    }

    pub(crate) fn exchange<K: Telling, A: Copy>(
        &mut self,
        place: Place,
        old: u64,
        new: u64,
        about: A,
    ) -> u64
        requires { MayStepAt P.role self.old place (λ n. either (n == old) new n) K.kind }
        ensures { TakesStep self.old self.new (K.kind result) }
    {
        let _ = about;
        let core = self.core;
        let at = place.index(core.ring);
        core.table
            .shared
            .compare_exchange::<Brand>(self.seat, at, old, new)
    }
}
