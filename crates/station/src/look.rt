//! Reading calls.
ghost use Rattle.std.specs.Prelude.{◌<◌, ◌≡◌, ◌≤◌, []};
ghost use Rattle.inorder.specs.Replies.{last_tag};
ghost use Rattle.ruu_words.specs.Places.{IsPlace};
ghost use Rattle.ruu_words.specs.Views.{IsCaller};
ghost use Rattle.station.specs.Looking.{SeesInfo, SeesLink, SeesOperand, SeesStation, SeesWord};
ghost use Rattle.station.specs.Renewals.{HasLooked};
ghost use Rattle.station.specs.Seats.{IsSameSeat};
ghost use Rattle.inorder.specs.OneHistory.{Adds};

use crate::answers::{Seen, SourceState};
use crate::call::Call;
use crate::cores::Core;
use crate::seat::{BackSeat, Part, SeatOf};
use crate::words::source_state;
use atomic_table::Seat;
use inorder::history::Source;
use instructions::Half;
use ruu_words::rule::View;
use ruu_words::{InfoWord, LinkWord, OperandWord, Place, StationState, StationWord};

impl Core {
    // Looks at any word.
    pub(crate) fn read<P: Part>(&self, seat: &mut SeatOf<P>, place: Place) -> u64
        requires core { seat.old.core ≡ self.now }
        requires place { IsPlace self.now.sizes.ring place }
        ensures looked { HasLooked self.now seat.old seat.new }
        ensures caller { IsCaller P.role seat.old.by }
        ensures reply { SeesWord self.now.program self.now.sizes seat.new.seen place result }
    {
        let mut call = Call::<P>::of(self, &mut seat.seat);
        let word = call.look(place);
        let Call { seat: given, .. } = call;
        let _given: &Seat<u8, View> = given;
        word
    }

    /// The word of a station.
    pub fn look<P: Part>(&self, seat: &mut SeatOf<P>, station: usize) -> Seen<StationState>
        requires core { seat.old.core ≡ self.now }
        requires station { station < self.now.sizes.ring }
        ensures kept { IsSameSeat seat.old seat.new }
        ensures woken { seat.new.woken ≡ seat.old.woken }
        ensures spare { seat.new.spare ≡ seat.old.spare }
        ensures caller { IsCaller P.role seat.old.by }
        ensures history { Adds self.now.program self.now.sizes seat.old.by seat.old.seen
            seat.new.seen [] }
        ensures reply { SeesStation self.now.program self.now.sizes seat.new.seen station result }
        ensures tag { result.tag ≤ last_tag }
    {
        let word = self.read(seat, Place::Station(station));
        let StationWord { tag, state, value } = StationWord::unpack(word);
        Seen { tag, state, value }
    }

    /// The info word of a station: the index of an instruction and a half of that, and the predicted
    /// next pc.
    pub fn info(&self, seat: &mut BackSeat, station: usize) -> (u32, Half, u32)
        requires core { seat.old.core ≡ self.now }
        requires station { station < self.now.sizes.ring }
        ensures kept { IsSameSeat seat.old seat.new }
        ensures woken { seat.new.woken ≡ seat.old.woken }
        ensures history { Adds self.now.program self.now.sizes seat.old.by seat.old.seen
            seat.new.seen [] }
        ensures reply { SeesInfo self.now.program self.now.sizes seat.new.seen station
            result.0 result.1 result.2 }
    {
        let word = self.read(seat, Place::Info(station));
        let InfoWord {
            half,
            index,
            predicted,
        } = InfoWord::unpack(word);
        (index, half, predicted)
    }

    /// The operand word of source k of a station.
    pub fn operand(&self, seat: &mut BackSeat, station: usize, k: Source) -> Seen<SourceState>
        requires core { seat.old.core ≡ self.now }
        requires station { station < self.now.sizes.ring }
        ensures kept { IsSameSeat seat.old seat.new }
        ensures woken { seat.new.woken ≡ seat.old.woken }
        ensures history { Adds self.now.program self.now.sizes seat.old.by seat.old.seen
            seat.new.seen [] }
        ensures reply { SeesOperand self.now.program self.now.sizes seat.new.seen station k result }
    {
        let word = self.read(seat, Place::Operand(station, k));
        let OperandWord { tag, value, .. } = OperandWord::unpack(word);
        let state = source_state(word);
        Seen { tag, state, value }
    }

    /// The link word from a station to source k of another one: whose value is awaited there, by the tags of
    /// both. There is none where no source was linked so.
    pub fn link(
        &self,
        seat: &mut BackSeat,
        producer: usize,
        consumer: usize,
        k: Source,
    ) -> Option<LinkWord>
        requires core { seat.old.core ≡ self.now }
        requires producer { producer < self.now.sizes.ring }
        requires consumer { consumer < self.now.sizes.ring }
        ensures kept { IsSameSeat seat.old seat.new }
        ensures woken { seat.new.woken ≡ seat.old.woken }
        ensures history { Adds self.now.program self.now.sizes seat.old.by seat.old.seen
            seat.new.seen [] }
        ensures reply { SeesLink self.now.program self.now.sizes seat.new.seen producer consumer
            k result }
    {
        let _ = &self.first_tag;
        let word = self.read(seat, Place::Link(producer, consumer, k));
        LinkWord::unpack(word)
    }
}
