//! Writeback: a result goes into its station, and then along the links.
ghost use Rattle.std.specs.Prelude.{◌<◌, ◌≡◌};
ghost use Rattle.station.specs.Calls.{Carried};
ghost use Rattle.station.specs.Answers.{AnswersFinish, AnswersSettle};
ghost use Rattle.station.specs.Claiming.{Holds};
ghost use Rattle.station.specs.Seats.{IsSameSeat};
ghost use Rattle.station.specs.Waking.{HasWoken, IsSet};
ghost use Rattle.station.specs.Writeback.{FinishAnswers, MaySettle, SettleAnswers, job_outcome};

use crate::answers::{Finish, Settle};
use crate::call::Call;
use crate::cores::Core;
use crate::job::Job;
use crate::results::{address_word, outcome_word};
use crate::seat::{BackPart, BackSeat, UnitPart, UnitSeat};
use crate::words::{busy_word, done_word};
use atomic_table::Seat;
use instructions::Outcome;
use ruu_words::rule::View;
use ruu_words::{Place, StationWord};

impl<'a> Call<'a, UnitPart> {
    // Writes the result into the station's word, and reads the links only after that. Gives the stations
    // that were woken, too.
    fn finish_job(&mut self, job: Job, outcome: Outcome) -> (Finish, u32)
        requires job { Holds self.old.core.program self.old.core.sizes self.old.view.by
            self.old.view.seen job }
        requires outcome { outcome ≡ job_outcome self.old.core.program job }
        ensures { Carried self.old self.new (AnswersFinish job result.0) (IsSet result.1) }
    {
        let _ = &self.seat;
        let Job {
            station,
            tag,
            index: _,
            half: _,
            pc: _,
            predicted,
            a: _,
            b: _,
        } = job;
        let old = busy_word(tag);
        let new = outcome_word(tag, predicted, outcome);
        let found = self.finish_tenant(station, old, new, predicted, outcome);
        if found != old {
            return (Finish::Stale, 0);
        }
        let woken = self.carry((station, tag), outcome);
        (Finish::Finished, woken)
    }
}

impl<'a> Call<'a, BackPart> {
    // Reads the load's address in its word, and exchanges that word for the value's. If the load was
    // squashed, the exchange fails and says so.
    fn settle_load(&mut self, station: usize, tag: u32, value: u32) -> (Settle, u32)
        requires { MaySettle self.old.core.program self.old.core.sizes self.old.view.seen
            station tag value }
        ensures { Carried self.old self.new (AnswersSettle station tag result.0)
            (IsSet result.1) }
    {
        let _ = &self.seat;
        let seen = self.look(Place::Station(station));
        let StationWord { value: address, .. } = StationWord::unpack(seen);
        let old = address_word(tag, address);
        let new = done_word(tag, value);
        let found = self.settle_tenant(station, old, new);
        if found != old {
            return (Settle::Stale, 0);
        }
        let woken = self.walk((station, tag), value);
        (Settle::Settled, woken)
    }
}

impl Core {
    /// Writes the outcome of a claimed tenant, and carries a value to all who asked for it.
    /// This is writeback, and the wakeup of consumers: a result reaches those that wait under its
    /// producer's tag (Tomasulo 1967), here along links, as in sim-outorder's `ruu_writeback`.
    pub fn finish(&self, seat: &mut UnitSeat, job: Job, outcome: Outcome) -> Finish
        requires core { seat.old.core ≡ self.now }
        requires job { Holds self.now.program self.now.sizes seat.old.by seat.old.seen job }
        requires outcome { outcome ≡ job_outcome self.now.program job }
        ensures kept { IsSameSeat seat.old seat.new }
        ensures spare { seat.new.spare ≡ seat.old.spare }
        ensures reply { FinishAnswers self.now.program self.now.sizes seat.old.by seat.old.seen
            seat.new.seen job result }
        ensures woken { HasWoken self.now.program self.now.sizes seat.old.by seat.old.seen
            seat.new.seen seat.new.woken }
    {
        let mut call = Call::<UnitPart>::of(self, &mut seat.seat);
        let written = call.finish_job(job, outcome);
        let Call { seat: given, .. } = call;
        let _given: &Seat<u8, View> = given;
        seat.woken = written.1;
        written.0
    }

    /// Writes the value of a load, and carries it to all who asked for it.
    /// The load completes; its consumers' wakeup is that of `finish`.
    pub fn settle(&self, seat: &mut BackSeat, station: usize, tag: u32, value: u32) -> Settle
        requires core { seat.old.core ≡ self.now }
        requires station { station < self.now.sizes.ring }
        requires may { MaySettle self.now.program self.now.sizes seat.old.seen station tag value }
        ensures kept { IsSameSeat seat.old seat.new }
        ensures reply { SettleAnswers self.now.program self.now.sizes seat.old.by seat.old.seen
            seat.new.seen station tag result }
        ensures woken { HasWoken self.now.program self.now.sizes seat.old.by seat.old.seen
            seat.new.seen seat.new.woken }
    {
        let mut call = Call::<BackPart>::of(self, &mut seat.seat);
        let settled = call.settle_load(station, tag, value);
        let Call { seat: given, .. } = call;
        let _given: &Seat<u8, View> = given;
        seat.woken = settled.1;
        settled.0
    }
}
