//! The calls of a session by its units. Each stands between two meetings with the seat that has seen all.
use super::Session;
use crate::names::UNITS;
use crate::replies::{Finished, Refusal, Reply};
use crate::units::{Claimed, UnitJob, answer_of, free_seat, held_station, put_worker, take_worker};
use back::OfProgram;
use instructions::Predictor;
use station::{a_job_is_of_the_program, jobs_stay};

impl<'a, P: Predictor + Drop, J: OfProgram> Session<'a, P, J> {
    ghost use Rattle.std.specs.Prelude.{◌≡◌, ◌<◌, None, Some};
    ghost use Rattle.session.specs.Sessions.{IsReplied, UnitHasStepped};
    ghost use Rattle.session.specs.Units.{unit_count};
    ghost use Rattle.session.specs.Workers.{HasClaimed, UnitHasFinished, job_at, station_held};
    ghost use Rattle.session.specs.declared.commands.Command.TheVariants.{Claim, Finish};

    // A claim by the unit at a place, which holds no job.
    fn issue(&mut self, unit: usize, station: usize) -> Claimed
        requires unit { unit < unit_count }
        requires station { station < self.old.core.sizes.ring }
        requires free { job_at self.old.units unit ≡ None }
        ensures stays { UnitHasStepped self.old self.new }
        ensures reply { HasClaimed self.old.core self.old.seen self.new.seen
            self.old.units self.new.units unit station result }
    {
        jobs_stay();
        let (core, all, units) = (&self.core, &mut self.all, &mut self.units);
        let mut seat = free_seat(take_worker(core, all, units, unit));
        core.meet(&mut seat, all);
        let claim = core.claim(&mut seat, station);
        core.meet(&mut seat, all);
        let (answer, job) = answer_of(claim);
        put_worker(units, unit, UnitJob { seat, job });
        answer
    }

    pub(super) fn claim(&mut self, unit: usize, station: u32) -> Reply
        ensures { IsReplied self.old self.new (Claim unit station) result }
    {
        let ring = self.core.ring();
        if UNITS <= unit {
            return Reply::Refused(Refusal::NoUnit);
        }
        if ring <= station as usize {
            return Reply::Refused(Refusal::NoStation);
        }
        if held_station(&self.units, unit).is_some() {
            return Reply::Refused(Refusal::HoldsJob);
        }
        let answer = self.issue(unit, station as usize);
        let from = self.awaited(station as usize, &answer);
        Reply::Claim(answer, from)
    }

    // The finish of the job of a station that the unit at a place holds, with the outcome of that job, and then a look at
    // its station.
    fn write_back(&mut self, unit: usize, station: usize) -> Finished
        requires unit { unit < unit_count }
        requires station { station < self.old.core.sizes.ring }
        requires holds { station_held self.old.units unit ≡ Some station }
        ensures stays { UnitHasStepped self.old self.new }
        ensures reply { UnitHasFinished self.old.core self.old.seen self.new.seen
            self.old.units self.new.units unit station result }
    {
        a_job_is_of_the_program();
        jobs_stay();
        let (core, all, units) = (&self.core, &mut self.all, &mut self.units);
        let UnitJob { mut seat, job } = take_worker(core, all, units, unit);
        let Some(job) = job else { unreachable!() };
        core.meet(&mut seat, all);
        let (station, tag) = (job.station(), job.tag());
        let found = job.outcome(self.program);
        let answer = core.finish(&mut seat, job, found);
        let woken = seat.woken();
        let seen = core.look(&mut seat, station);
        core.meet(&mut seat, all);
        put_worker(units, unit, UnitJob { seat, job: None });
        Finished {
            answer,
            station,
            tag,
            woken,
            seen,
        }
    }

    pub(super) fn finish(&mut self, unit: usize, station: u32) -> Reply
        ensures { IsReplied self.old self.new (Finish unit station) result }
    {
        let (units, ring) = (&self.units, self.core.ring());
        if units.len() <= unit {
            return Reply::Refused(Refusal::NoUnit);
        }
        if ring <= station as usize {
            return Reply::Refused(Refusal::NoStation);
        }
        match held_station(units, unit) {
            Some(held) if held == station as usize => Reply::Finish(self.write_back(unit, held)),
            _ => Reply::Refused(Refusal::HoldsNone),
        }
    }
}
