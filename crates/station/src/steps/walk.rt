//! The last step of a walk along the links of a value.
ghost use Rattle.std.specs.Prelude.{◌<◌};
ghost use Rattle.station.specs.Carrying.{EndsWalk, IsServedAll, IsWriter};
ghost use Rattle.station.specs.Calls.{TakesStep};

use crate::call::Call;
use crate::seat::Part;
use ruu_words::Place;
use std::marker::Brand;

impl<'a, P: Part> Call<'a, P> {
    /// Looks at the producer's station once all are served.
    pub(crate) fn end_walk(&mut self, station: usize, tag: u32, value: u32)
        requires writer { IsWriter P.role }
        requires served { IsServedAll self.old.core.program self.old.core.sizes self.old.view.seen
            station tag value }
        ensures { TakesStep self.old self.new (λ P C. EndsWalk P C station tag) }
    {
        let about = (station, tag, value);
        self.load::<Brand, (usize, u32, u32)>(Place::Station(station), about);
    }
}
