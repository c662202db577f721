//! The writes with which a tenant is mended or leaves.
ghost use Rattle.std.specs.Prelude.{◌≡◌, suc, ◌<◌, None};
ghost use Rattle.inorder.specs.StationWords.{IsFree, live_word};
ghost use Rattle.inorder.specs.Tenants.{Done};
ghost use Rattle.ruu_words.specs.declared.rule.Draft.TheVariants.{Nothing};
ghost use Rattle.ruu_words.specs.Content.{IsStation};
ghost use Rattle.ruu_words.specs.Fields.{tag_of, word_value};
ghost use Rattle.station.specs.Recovery.{HasMiss, HasYoungest, Mends, Squashes};
ghost use Rattle.station.specs.Calls.{TakesStep};

use crate::call::Call;
use crate::seat::FrontPart;
use ruu_words::Place;
use std::marker::Brand;

impl<'a> Call<'a, FrontPart> {
    /// Swaps the word of a miss for that of a tenant that is done.
    pub(crate) fn mend_tenant(&mut self, station: usize, word: u64)
        requires draft { self.old.view.draft ≡ Nothing }
        requires word { IsStation (live_word (tag_of word) (Done (word_value word))) word }
        requires miss { HasMiss self.old.core.program self.old.core.sizes self.old.view.seen
            station (tag_of word) (word_value word) }
        ensures { TakesStep self.old self.new (λ P C. Mends P C station) }
    {
        self.swap::<Brand, usize>(Place::Station(station), word, station);
    }

    /// Swaps the word of the youngest live tenant for that of a free station.
    pub(crate) fn squash_tenant(&mut self, station: usize, tag: u32, word: u64)
        requires draft { self.old.view.draft ≡ Nothing }
        requires word { IsStation (record { tag = suc tag; state = IsFree; value = None }) word }
        requires youngest { HasYoungest self.old.core.program self.old.core.sizes
            self.old.view.seen station tag }
        ensures { TakesStep self.old self.new (λ P C. Squashes P C station tag) }
    {
        let place = Place::Station(station);
        self.swap::<Brand, (usize, u32)>(place, word, (station, tag));
    }
}
