//! The steps of a question: the link's store, the look at its creator, and the exchange of the operand.
ghost use Rattle.std.specs.Prelude.{◌≡◌, ◌<◌};
ghost use Rattle.ruu_words.specs.declared.rule.Draft.TheVariants.{Nothing};
ghost use Rattle.ruu_words.specs.Fields.{pack_link, tag_of, word_value};
ghost use Rattle.station.specs.Asking.{MayAsk};
ghost use Rattle.station.specs.Wakeup.{CanAnswer, Ends, Finds, HasAskedFrom, Links};
ghost use Rattle.station.specs.Writeback.{AreOperands};
ghost use Rattle.station.specs.Calls.{TakesStep};

use crate::call::Call;
use crate::seat::FrontPart;
use inorder::history::Source;
use ruu_words::Place;
use std::marker::Brand;

impl<'a> Call<'a, FrontPart> {
    /// Stores the link from the creator to source k of a tenant, both by station and tag.
    pub(crate) fn store_link(&mut self, of: (usize, u32), k: Source, from: (usize, u32), link: u64)
        requires draft { self.old.view.draft ≡ Nothing }
        requires may { MayAsk self.old.core.program self.old.core.sizes self.old.view.seen
            of.0 of.1 k from.0 from.1 }
        requires link { link ≡ pack_link from.1 of.1 }
        ensures { TakesStep self.old self.new (λ P C. Links P C of.0 of.1 k) }
    {
        let place = Place::Link(from.0, of.0, k);
        let about = (of.0, of.1, k);
        self.store::<Brand, (usize, u32, Source)>(place, link, about);
    }

    /// Looks at the creator's station: it tells that the source was asked for in time, or its value.
    pub(crate) fn look_at_creator(&mut self, of: (usize, u32), k: Source, from: (usize, u32)) -> u64
        requires draft { self.old.view.draft ≡ Nothing }
        requires asked { HasAskedFrom self.old.core.program self.old.core.sizes self.old.view.seen
            of.0 of.1 k from.0 from.1 }
        ensures { TakesStep self.old self.new (λ P C. Finds P C of.0 of.1 k from.0 from.1 result) }
    {
        let place = Place::Station(from.0);
        let about = (of.0, of.1, k, from.0, from.1);
        self.load::<Brand, (usize, u32, Source, usize, u32)>(place, about)
    }

    /// Exchanges the word of an operand that waits for that of its value.
    pub(crate) fn take_value(&mut self, station: usize, k: Source, old: u64, new: u64) -> u64
        requires draft { self.old.view.draft ≡ Nothing }
        requires words { AreOperands old new }
        requires answer { CanAnswer self.old.core.program self.old.core.sizes self.old.view.seen
            station (tag_of old) k (word_value new) }
        ensures { TakesStep self.old self.new (λ P C. Ends P C station (tag_of old) k old result) }
    {
        let place = Place::Operand(station, k);
        self.exchange::<Brand, (usize, Source)>(place, old, new, (station, k))
    }
}
