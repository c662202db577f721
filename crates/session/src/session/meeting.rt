//! Two that meet in a session.
ghost use Rattle.std.specs.Prelude.{◌≡◌, ◌<◌, true, false, vec_len};
ghost use Rattle.station.specs.Seats.{IsSameSeat};
ghost use Rattle.session.specs.Moments.{GrowsLegally};
ghost use Rattle.session.specs.Workers.{AreWorkers, UnitHasSeen};
ghost use Rattle.session.specs.Sessions.{IsNobody, IsSomebody};

use super::Session;
use crate::names::{Party, UNITS};
use crate::replies::{Refusal, Reply};
use crate::units::{UnitJob, put_worker, take_worker};
use back::OfProgram;
use instructions::Predictor;
use station::{Core, UnitSeat, jobs_stay};

fn is_nobody(party: Party) -> bool
    ensures is { result ≡ true → IsNobody party }
    ensures not { result ≡ false → IsSomebody party }
{
    match party {
        Party::Unit(unit) => UNITS <= unit,
        _ => false,
    }
}

// The unit at a place, which is made if it is not there yet, learns all, and tells what it has seen.
fn tell_all(core: &Core, all: &mut UnitSeat, units: &mut Vec<Option<UnitJob>>, unit: usize)
    requires all { all.old.core ≡ core.now }
    requires unit { unit < vec_len units.old }
    requires workers { AreWorkers core.now units.old.items }
    ensures all { IsSameSeat all.old all.new }
    ensures grows { GrowsLegally core.now all.old.seen all.new.seen }
    ensures workers { AreWorkers core.now units.new.items }
    ensures places { vec_len units.new ≡ vec_len units.old }
    ensures told { UnitHasSeen units.old.items units.new.items unit all.old.seen all.new.seen }
{
    let UnitJob { mut seat, job } = take_worker(core, all, units, unit);
    jobs_stay();
    core.meet(&mut seat, all);
    put_worker(units, unit, UnitJob { seat, job });
}

impl<'a, P: Predictor + Drop, J: OfProgram> Session<'a, P, J> {
    ghost use Rattle.std.specs.Prelude.{◌≡◌};
    ghost use Rattle.session.specs.Moments.{GrowsLegally};
    ghost use Rattle.session.specs.Sessions.{HasToldAll, IsReplied, IsSomebody, after_command};
    ghost use Rattle.session.specs.declared.commands.Command.TheVariants.{Meet};

    // One of them learns all that was seen, and tells what it has seen.
    fn tell(&mut self, party: Party)
        requires { IsSomebody party }
        ensures core { self.new.core ≡ self.old.core }
        ensures grows { GrowsLegally self.old.core self.old.seen self.new.seen }
        ensures kept { self.new ≡ after_command (Meet party party) self.old self.new }
        ensures told { HasToldAll self.old self.new party }
    {
        let (core, all) = (&self.core, &mut self.all);
        match party {
            Party::Front => self.front.meet(core, all),
            Party::Back => self.back.meet(core, all),
            Party::Unit(unit) => tell_all(core, all, &mut self.units, unit),
        }
    }

    // They meet by the seat that has seen all: it meets the first, the other, and the first again.
    pub(super) fn meet(&mut self, one: Party, other: Party) -> Reply
        ensures { IsReplied self.old self.new (Meet one other) result }
    {
        let _ = &self.core;
        if is_nobody(one) || is_nobody(other) {
            return Reply::Refused(Refusal::NoUnit);
        }
        if one == other {
            return Reply::Refused(Refusal::NoOther);
        }
        self.tell(one);
        self.tell(other);
        self.tell(one);
        Reply::Met
    }
}
