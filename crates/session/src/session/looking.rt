//! What a session reads, of words and of the create vector.
use super::Session;
use crate::names::register_of;
use crate::queue::Accesses;
use crate::replies::{Refusal, Reply};
use back::OfProgram;
use instructions::Predictor;
use station::Source;
use std::alloc::{AllocError, Global};

impl<'a, P: Predictor + Drop, J: OfProgram> Session<'a, P, J> {
    ghost use Rattle.std.specs.Prelude.{◌<◌, OnOk};
    ghost use Rattle.session.specs.Sessions.{IsReplied, OnlyLooked};
    ghost use Rattle.session.specs.declared.commands.Command.TheVariants.{Creator, Info, Link, Look, Operand, Ring, Station, Touched};

    pub(super) fn look(&mut self, station: u32) -> Reply
        ensures { IsReplied self.old self.new (Look station) result }
    {
        if self.core.ring() <= station as usize {
            return Reply::Refused(Refusal::NoStation);
        }
        Reply::Look(self.read_station(station as usize))
    }

    pub(super) fn creator(&mut self, register: u32) -> Reply
        ensures { IsReplied self.old self.new (Creator register) result }
    {
        let _ = &self.core;
        let Some(named) = register_of(register) else {
            return Reply::Refused(Refusal::NoRegister);
        };
        Reply::Creator(self.read_creator(named))
    }

    pub(super) fn touched(&mut self) -> Reply
        ensures { IsReplied self.old self.new Touched result }
    {
        Reply::Touched(self.front.touched())
    }

    pub(super) fn info(&mut self, station: u32) -> Reply
        ensures { IsReplied self.old self.new (Info station) result }
    {
        if self.core.ring() <= station as usize {
            return Reply::Refused(Refusal::NoStation);
        }
        Reply::Info(self.read_info(station as usize))
    }

    pub(super) fn operand(&mut self, station: u32, k: Source) -> Reply
        ensures { IsReplied self.old self.new (Operand station k) result }
    {
        if self.core.ring() <= station as usize {
            return Reply::Refused(Refusal::NoStation);
        }
        Reply::Operand(k, self.whole_operand(station as usize, k))
    }

    pub(super) fn link(&mut self, station: u32, k: Source) -> Reply
        ensures { IsReplied self.old self.new (Link station k) result }
    {
        if self.core.ring() <= station as usize {
            return Reply::Refused(Refusal::NoStation);
        }
        Reply::Link(self.linked(station as usize, k))
    }

    pub(super) fn station(&mut self, station: u32) -> Reply
        ensures { IsReplied self.old self.new (Station station) result }
    {
        if self.core.ring() <= station as usize {
            return Reply::Refused(Refusal::NoStation);
        }
        Reply::Station(self.row(station as usize))
    }

    pub(super) fn ring_told(&mut self) -> Reply
        ensures { IsReplied self.old self.new Ring result }
    {
        let (head, ahead) = self.ends();
        Reply::Ring(head, ahead)
    }

    // The station of the oldest tenant; the first one where nobody is live.
    fn oldest_station(&mut self) -> usize
        ensures { OnlyLooked self.old self.new }
    {
        let (head, _) = self.ends();
        head.station.unwrap_or(0)
    }

    // Adds the load or store of a station, if one is there.
    fn push_access(&mut self, queue: &mut Accesses, station: usize) -> Result<(), AllocError>
        requires { station < self.old.core.sizes.ring }
        ensures { OnOk result (OnlyLooked self.old self.new) }
    {
        let row = self.row(station);
        queue.push(self.program, station, &row)
    }

    /// The loads and stores in flight, the oldest first: each with its address, its data, and, of a load, where its value
    /// comes from or what blocks it.
    pub(crate) fn queue(&mut self, alloc: Global) -> Result<String, AllocError>
        ensures { OnOk result (OnlyLooked self.old self.new) }
    {
        let mut queue = Accesses::new(alloc);
        let oldest = self.oldest_station() % self.core.ring();
        for at in 0..self.core.ring() {
            let station = (oldest + at) % self.core.ring();
            self.push_access(&mut queue, station)?;
        }
        Ok(queue.text)
    }
}
