//! Questions for a source.
ghost use Rattle.std.specs.Prelude.{◌<◌, ◌≡◌};
ghost use Rattle.ruu_words.specs.declared.rule.Draft.TheVariants.{Nothing};
ghost use Rattle.station.specs.Calls.{LeadsTo, let_place};
ghost use Rattle.station.specs.Answers.{AnswersAsk};
ghost use Rattle.station.specs.Asking.{AskAnswers, MayAsk};
ghost use Rattle.station.specs.Seats.{IsSameSeat};

use crate::answers::Ask;
use crate::call::Call;
use crate::cores::Core;
use crate::results::{link_word, shows_value, value_word, waiting_word};
use crate::seat::{FrontPart, FrontSeat};
use atomic_table::Seat;
use inorder::history::Source;
use ruu_words::StationWord;
use ruu_words::rule::View;

impl<'a> Call<'a, FrontPart> {
    // Stores the link, and looks at the creator only after that: one that finishes in between finds the link.
    // A creator that holds its result by then gives it at once.
    fn ask_creator(&mut self, of: (usize, u32), k: Source, from: (usize, u32)) -> Ask
        requires draft { self.old.view.draft ≡ Nothing }
        requires may { MayAsk self.old.core.program self.old.core.sizes self.old.view.seen
            of.0 of.1 k from.0 from.1 }
        ensures { LeadsTo self.old self.new (let_place self.old) (AnswersAsk of k from result) }
    {
        let _ = &self.seat;
        let link = link_word(from.1, of.1);
        self.store_link(of, k, from, link);
        let found = self.look_at_creator(of, k, from);
        let StationWord { state, value, .. } = StationWord::unpack(found);
        if !shows_value(state) {
            return Ask::Linked;
        }
        let old = waiting_word(of.1);
        let new = value_word(of.1, value);
        self.take_value(of.0, k, old, new);
        Ask::Delivered
    }
}

impl Core {
    /// Asks for source k of a station's last tenant, from its creator: a station and a tag.
    /// A link and a tag stand for Tomasulo's common data bus (1967), as `RS_link` does in
    /// SimpleScalar's sim-outorder: the producer's wakeup goes along its links.
    pub fn ask(
        &self,
        seat: &mut FrontSeat,
        station: usize,
        tag: u32,
        k: Source,
        from: (usize, u32),
    ) -> Ask
        requires core { seat.old.core ≡ self.now }
        requires station { station < self.now.sizes.ring }
        requires from { from.0 < self.now.sizes.ring }
        requires may { MayAsk self.now.program self.now.sizes seat.old.seen
            station tag k from.0 from.1 }
        ensures kept { IsSameSeat seat.old seat.new }
        ensures reply { AskAnswers self.now.program self.now.sizes seat.old.by seat.old.seen
            seat.new.seen station tag k from.0 from.1 result }
    {
        let mut call = Call::<FrontPart>::of(self, &mut seat.seat);
        let answer = call.ask_creator((station, tag), k, from);
        let Call { seat: given, .. } = call;
        let _given: &Seat<u8, View> = given;
        answer
    }
}
