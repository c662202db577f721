//! The steps of a writeback and of a wakeup: a result goes into its station, then along the links.
ghost use Rattle.std.specs.Prelude.{◌<◌};
ghost use Rattle.inorder.specs.Tenants.{Addr, Busy, Done};
ghost use Rattle.inorder.specs.Callers.{HasJob};
ghost use Rattle.ruu_words.specs.declared.place.Place.TheVariants.{Link};
ghost use Rattle.ruu_words.specs.Places.{IsPlace};
ghost use Rattle.ruu_words.specs.Fields.{tag_of, word_value};
ghost use Rattle.ruu_words.specs.Kinds.{Delivers, Finishes, ReadsLink, Settles, fate_of};
ghost use Rattle.station.specs.Writeback.{AreFates, AreOperands, CanDeliver, CanSettle};
ghost use Rattle.station.specs.Calls.{HasOne, TakesStep};

use crate::call::Call;
use crate::seat::{BackPart, Part, UnitPart};
use inorder::history::Source;
use instructions::Outcome;
use ruu_words::Place;
use std::marker::Brand;

impl<'a> Call<'a, UnitPart> {
    /// Exchanges the word of a busy tenant for its outcome's.
    pub(crate) fn finish_tenant(
        &mut self,
        station: usize,
        old: u64,
        new: u64,
        predicted: u32,
        outcome: Outcome,
    ) -> u64
        requires words { AreFates (Busy self.old.view.by) (fate_of predicted outcome) old new }
        requires job { HasOne self.old station (tag_of old)
            (HasJob self.old.core.program self.old.view.by predicted outcome) }
        ensures { TakesStep self.old self.new
            (λ P C. Finishes P C station (tag_of old) outcome old result) }
    {
        let place = Place::Station(station);
        self.exchange::<Brand, (usize, Outcome)>(place, old, new, (station, outcome))
    }
}

impl<'a> Call<'a, BackPart> {
    /// Exchanges the word of a load with its address for that of its value.
    pub(crate) fn settle_tenant(&mut self, station: usize, old: u64, new: u64) -> u64
        requires words { AreFates (Addr (word_value old)) (Done (word_value new)) old new }
        requires load { CanSettle self.old.core.program self.old.core.sizes self.old.view.seen
            station (tag_of old) (word_value old) (word_value new) }
        ensures { TakesStep self.old self.new (λ P C. Settles P C station (tag_of old) old result) }
    {
        self.exchange::<Brand, usize>(Place::Station(station), old, new, station)
    }
}

impl<'a, P: Part> Call<'a, P> {
    /// Reads a link from a producer's station to a source of a consumer's.
    pub(crate) fn read_link(&mut self, from: usize, to: usize, k: Source) -> u64
        requires { IsPlace self.old.core.sizes.ring (Link from to k) }
        ensures { TakesStep self.old self.new (λ P C. ReadsLink P C from to k result) }
    {
        let place = Place::Link(from, to, k);
        self.load::<Brand, (usize, usize, Source)>(place, (from, to, k))
    }

    /// Takes a value along a link, if its consumer still waits.
    pub(crate) fn deliver(&mut self, station: usize, k: Source, old: u64, new: u64) -> u64
        requires words { AreOperands old new }
        requires link { CanDeliver self.old.core.program self.old.core.sizes self.old.view.seen
            station k (tag_of old) (word_value new) }
        ensures { TakesStep self.old self.new
            (λ P C. Delivers P C station k (tag_of old) old result) }
    {
        let place = Place::Operand(station, k);
        self.exchange::<Brand, (usize, Source)>(place, old, new, (station, k))
    }
}
