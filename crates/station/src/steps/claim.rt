//! The steps of a claim: two looks with the info word between them, the needed operands, the exchange.
ghost use Rattle.std.specs.Prelude.{◌<◌};
ghost use Rattle.inorder.specs.StationWords.{live_word};
ghost use Rattle.inorder.specs.Tenants.{Busy, Open};
ghost use Rattle.ruu_words.specs.Content.{IsStation};
ghost use Rattle.ruu_words.specs.Fields.{tag_of};
ghost use Rattle.ruu_words.specs.Kinds.{Claims, IsAny, Peeks, ReadsSource, Rechecks};
ghost use Rattle.inorder.specs.Callers.{IsReady};
ghost use Rattle.station.specs.Claiming.{IsNext};
ghost use Rattle.station.specs.Calls.{Saw, TakesStep};
ghost use Rattle.station.specs.Writeback.{AreFates};

use crate::call::Call;
use crate::seat::UnitPart;
use inorder::history::Source;
use ruu_words::Place;
use std::marker::Brand;

impl<'a> Call<'a, UnitPart> {
    /// Looks for an open tenant, and tells where there is none.
    pub(crate) fn peek(&mut self, station: usize) -> u64
        requires { station < self.old.core.sizes.ring }
        ensures { TakesStep self.old self.new (λ P C. Peeks P C station result) }
    {
        self.load::<Brand, usize>(Place::Station(station), station)
    }

    /// Looks again: the open tenant's word is still there, or it has moved.
    pub(crate) fn recheck(&mut self, station: usize, old: u64) -> u64
        requires word { IsStation (live_word (tag_of old) Open) old }
        requires seen { Saw self.old station (tag_of old) IsAny }
        ensures { TakesStep self.old self.new
            (λ P C. Rechecks P C station (tag_of old) old result) }
    {
        self.load::<Brand, (usize, u64)>(Place::Station(station), (station, old))
    }

    /// Reads a needed source: it has its value, or waits, or its tenant has left.
    pub(crate) fn read_source(&mut self, station: usize, tag: u32, k: Source) -> u64
        requires { Saw self.old station tag (IsNext self.old.core.program k) }
        ensures { TakesStep self.old self.new (λ P C. ReadsSource P C station tag k result) }
    {
        let place = Place::Operand(station, k);
        self.load::<Brand, (usize, u32, Source)>(place, (station, tag, k))
    }

    /// Exchanges the word of an open tenant for that of a busy one.
    pub(crate) fn claim_tenant(&mut self, station: usize, old: u64, new: u64) -> u64
        requires words { AreFates Open (Busy self.old.view.by) old new }
        requires seen { Saw self.old station (tag_of old) (IsReady self.old.core.program) }
        ensures { TakesStep self.old self.new (λ P C. Claims P C station (tag_of old) old result) }
    {
        self.exchange::<Brand, usize>(Place::Station(station), old, new, station)
    }
}
