//! Recovery from a miss.
ghost use Rattle.std.specs.Prelude.{◌<◌, ◌≡◌};
ghost use Rattle.ruu_words.specs.declared.rule.Draft.TheVariants.{Nothing};
ghost use Rattle.station.specs.Calls.{LeadsTo, let_place};
ghost use Rattle.station.specs.Answers.{MendsAt, SquashesAt};
ghost use Rattle.station.specs.Recovery.{IsMended, SeesMiss, SeesWrongPath, WasSquashed};
ghost use Rattle.station.specs.Seats.{IsSameSeat};

use crate::call::Call;
use crate::cores::Core;
use crate::seat::{FrontPart, FrontSeat};
use crate::words::{done_word, left_word};
use atomic_table::Seat;
use inorder::wrapped;
use ruu_words::rule::View;
use ruu_words::{Place, StationWord};

impl<'a> Call<'a, FrontPart> {
    // Reads the computed next pc of a miss, and marks the miss as done.
    fn mend_miss(&mut self, station: usize)
        requires draft { self.old.view.draft ≡ Nothing }
        requires miss { SeesMiss self.old.core.program self.old.core.sizes self.old.view.seen
            station }
        ensures { LeadsTo self.old self.new (let_place self.old) (MendsAt station) }
    {
        let _ = &self.seat;
        let found = self.look(Place::Station(station));
        let StationWord {
            tag,
            value: next,
            ..
        } = StationWord::unpack(found);
        let done = done_word(tag, next);
        self.mend_tenant(station, done);
    }

    // Squashes the youngest live tenant: reads its tag and frees its station. Gives station and tag.
    fn squash_youngest(&mut self, next: usize) -> (usize, u32)
        requires place { next < self.old.core.sizes.ring }
        requires draft { self.old.view.draft ≡ Nothing }
        requires may { SeesWrongPath self.old.core.program self.old.core.sizes self.old.view.seen }
        requires next { next ≡ let_place self.old }
        ensures inside { result.0 < self.old.core.sizes.ring }
        ensures squashed { LeadsTo self.old self.new result.0 (SquashesAt result.0 result.1) }
    {
        let core = self.core;
        let station = wrapped(next + core.ring - 1, core.ring);
        let found = self.look(Place::Station(station));
        let StationWord { tag, .. } = StationWord::unpack(found);
        let free = left_word(tag, 0);
        self.squash_tenant(station, tag, free);
        (station, tag)
    }
}

impl Core {
    /// Squashes the youngest live tenant, and gives its station and tag.
    /// Recovery from a misprediction goes from the youngest instruction back, and a squashed one's
    /// tag is spent, so that its links are dead: sim-outorder's `ruu_recover`.
    pub fn squash(&self, seat: &mut FrontSeat) -> (usize, u32)
        requires core { seat.old.core ≡ self.now }
        requires may { SeesWrongPath self.now.program self.now.sizes seat.old.seen }
        ensures kept { IsSameSeat seat.old seat.new }
        ensures reply { WasSquashed self.now.program self.now.sizes seat.old.by
            result.0 result.1 seat.old.seen seat.new.seen }
    {
        let next = seat.station;
        let mut call = Call::<FrontPart>::of(self, &mut seat.seat);
        let squashed = call.squash_youngest(next);
        let Call { seat: given, .. } = call;
        let _given: &Seat<u8, View> = given;
        seat.station = squashed.0;
        squashed
    }

    /// Mends the miss of a station, which is the youngest live tenant: the path goes on at its
    /// computed next pc.
    /// The misprediction is resolved, and fetch goes on where the branch really goes.
    pub fn mend(&self, seat: &mut FrontSeat, station: usize)
        requires core { seat.old.core ≡ self.now }
        requires station { station < self.now.sizes.ring }
        requires miss { SeesMiss self.now.program self.now.sizes seat.old.seen station }
        ensures kept { IsSameSeat seat.old seat.new }
        ensures history { IsMended self.now.program self.now.sizes seat.old.by
            station seat.old.seen seat.new.seen }
    {
        let mut call = Call::<FrontPart>::of(self, &mut seat.seat);
        call.mend_miss(station);
        let Call { seat: given, .. } = call;
        let _given: &Seat<u8, View> = given;
    }
}
