//! Loads that add nothing.
ghost use Rattle.std.specs.Prelude.{◌<◌};
ghost use Rattle.ruu_words.specs.Kinds.{ReadsInfo};
ghost use Rattle.ruu_words.specs.Places.{IsPlace};
ghost use Rattle.station.specs.Calls.{TakesStep};
ghost use Rattle.station.specs.Steps.{Sees};

use crate::call::Call;
use crate::seat::Part;
use ruu_words::Place;
use std::marker::Brand;

impl<'a, P: Part> Call<'a, P> {
    /// Looks at a word.
    pub(crate) fn look(&mut self, place: Place) -> u64
        requires { IsPlace self.old.core.sizes.ring place }
        ensures { TakesStep self.old self.new
            (λ P C. Sees P C self.old.view.by self.old.view place result) }
    {
        self.load::<Brand, ()>(place, ())
    }

    /// Reads the info word of a station.
    pub(crate) fn read_info(&mut self, station: usize) -> u64
        requires { station < self.old.core.sizes.ring }
        ensures { TakesStep self.old self.new (λ P C. ReadsInfo P C station result) }
    {
        self.load::<Brand, usize>(Place::Info(station), station)
    }
}
