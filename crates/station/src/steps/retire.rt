//! The steps of a retirement: a look at the oldest live tenant, a store's data, and the write with
//! which it leaves, or the load that tells why it cannot.
ghost use Rattle.std.specs.Prelude.{◌≢◌, ◌<◌, true, false};
ghost use Rattle.instructions.specs.Instruction.{kind};
ghost use Rattle.instructions.specs.Programs.{instr_of};
ghost use Rattle.instructions.specs.declared.op.Kind.TheVariants.{Stores};
ghost use Rattle.inorder.specs.declared.history.Refusal.TheVariants.{NotDone, Over};
ghost use Rattle.ruu_words.specs.Content.{IsStation};
ghost use Rattle.ruu_words.specs.Kinds.{Tells};
ghost use Rattle.station.specs.Retirement.{FindsData, HasAccess, Leaves, LooksAtHead, MayLeave, left_word};
ghost use Rattle.station.specs.Seats.{IsAtHead};
ghost use Rattle.station.specs.Calls.{TakesStep, seen_unit};

use crate::answers::Last;
use crate::call::Call;
use crate::seat::BackPart;
use inorder::history::Source;
use instructions::Half;
use ruu_words::Place;
use std::marker::Brand;

/// A load or store with its address.
#[derive(Clone, Copy)]
pub(crate) struct Access {
    pub(crate) station: usize,
    pub(crate) tag: u32,
    pub(crate) index: u32,
    pub(crate) half: Half,
    pub(crate) address: u32,
}

/// A tenant that retires.
#[derive(Clone, Copy)]
pub(crate) struct Leaving {
    pub(crate) station: usize,
    pub(crate) tag: u32,
    pub(crate) index: u32,
    pub(crate) half: Half,
    pub(crate) last: Last,
}

impl<'a> Call<'a, BackPart> {
    /// Looks at a station, and tells that a stop has retired.
    pub(crate) fn tell_over(&mut self, station: usize)
        requires place { station < self.old.core.sizes.ring }
        requires over { IsAtHead self.old.core.sizes (seen_unit self.old) station true }
        ensures { TakesStep self.old self.new (λ P C. Tells P C Over) }
    {
        self.load::<Brand, ()>(Place::Station(station), ());
    }

    /// Looks at the oldest live tenant, and tells where it cannot retire, or where there is none.
    pub(crate) fn look_at_head(&mut self, station: usize) -> u64
        requires place { station < self.old.core.sizes.ring }
        requires head { IsAtHead self.old.core.sizes (seen_unit self.old) station false }
        ensures { TakesStep self.old self.new
            (λ P C. LooksAtHead P C self.old.view.by station result) }
    {
        self.load::<Brand, usize>(Place::Station(station), station)
    }

    /// Looks at it again, and tells that the load cannot retire before it has its value.
    pub(crate) fn tell_waiting(&mut self, access: Access)
        requires access { HasAccess self.old.core.program self.old.core.sizes self.old.view.seen
            access }
        requires load { kind (instr_of self.old.core.program access.index).op ≢ Stores }
        ensures { TakesStep self.old self.new (λ P C. Tells P C NotDone) }
    {
        let place = Place::Station(access.station);
        self.load::<Brand, ()>(place, ());
    }

    /// Reads a store's data, and tells where it is not there.
    pub(crate) fn read_data(&mut self, access: Access) -> u64
        requires { HasAccess self.old.core.program self.old.core.sizes self.old.view.seen access }
        ensures { TakesStep self.old self.new (λ P C. FindsData P C access result) }
    {
        let place = Place::Operand(access.station, Source::Second);
        self.load::<Brand, Access>(place, access)
    }

    /// Swaps the word of the oldest live tenant for that of a free station.
    pub(crate) fn retire_tenant(&mut self, leaving: Leaving, word: u64)
        requires may { MayLeave self.old.core.program self.old.core.sizes self.old.view.seen
            leaving }
        requires word { IsStation (left_word leaving) word }
        ensures { TakesStep self.old self.new (λ P C. Leaves P C leaving) }
    {
        let place = Place::Station(leaving.station);
        self.swap::<Brand, Leaving>(place, word, leaving);
    }
}
