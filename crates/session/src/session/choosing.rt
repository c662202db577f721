//! What a session does next: in the order of the unit on one thread, or of what makes sense, of which a seed names one.
use super::Session;
use crate::commands::Command;
use crate::names::UNITS;
use crate::replies::Row;
use crate::shown::indexed;
use crate::units::held_station;
use back::OfProgram;
use instructions::{Kind, Predictor, Program};
use station::{SourceState, StationState};
use std::alloc::{AllocError, Global};

/// How many units the chosen commands are for.
const PLAYERS: usize = 3;

// A claim would find what it needs: a store needs its address alone.
fn is_ready(program: &Program, row: &Row) -> bool {
    let is_store = match indexed(program, row.first.info.index) {
        Some(instr) => matches!(instr.op().kind(), Kind::Stores),
        None => false,
    };
    !matches!(row.first.seen.state, SourceState::Wait)
        && (is_store || !matches!(row.second.seen.state, SourceState::Wait))
}

// The command that makes sense for the tenant of a station, where this unit holds no job.
fn choice_of_row(
    program: &Program,
    station: u32,
    row: &Row,
    idle: Option<usize>,
) -> Option<Command> {
    match (row.seen.state, idle) {
        (StationState::Open, Some(unit)) if is_ready(program, row) => {
            Some(Command::Claim(unit, station))
        }
        (StationState::Miss, _) => Some(Command::Recover),
        (StationState::Addr, _) => Some(Command::Refresh),
        _ => None,
    }
}

// A commit may find something to do, where this is the oldest tenant's station.
fn may_commit(oldest: &Option<(usize, Row)>) -> bool {
    match oldest {
        Some((_, row)) => matches!(
            row.seen.state,
            StationState::Addr | StationState::Done | StationState::Stop
        ),
        None => true,
    }
}

impl<'a, P: Predictor + Drop, J: OfProgram> Session<'a, P, J> {
    ghost use Rattle.std.specs.Prelude.{◌<◌, IfNone, IfOk, IsSome, OnOk};
    ghost use Rattle.session.specs.Sessions.{MayHaveLooked, OnlyLooked};

    // The finish of the job that the unit at a place holds, if it holds one of the ring.
    fn finish_of(&self, unit: usize) -> Option<Command>
        requires { unit < 64 }
    {
        match held_station(&self.units, unit) {
            Some(station) if station < self.core.ring() => {
                Some(Command::Finish(unit, station as u32))
            }
            _ => None,
        }
    }

    fn held(&self) -> Option<Command> {
        for unit in 0..UNITS {
            if let Some(finish) = self.finish_of(unit) {
                return Some(finish);
            }
        }
        None
    }

    // Adds all that the unit on one thread does before a retirement: recovery, dispatch, the claim of each tenant from
    // the oldest on, and a load.
    fn push_all(&self, order: &mut Vec<Command>, oldest: usize) -> Result<(), AllocError> {
        order.push(Command::Recover)?;
        order.push(Command::Turn(None))?;
        let ring = self.core.ring();
        for at in 0..ring {
            let station = (oldest % ring + at) % ring;
            order.push(Command::Claim(0, station as u32))?;
        }
        order.push(Command::Refresh)?;
        Ok(())
    }

    /// The commands that the next turn tries, where this is the oldest tenant's station, with a commit last. After the
    /// end of the run that is the only one. A job that a unit holds is finished before all else.
    pub(crate) fn order(&self, alloc: Global, oldest: usize) -> Result<Vec<Command>, AllocError> {
        let mut order = Vec::new(alloc);
        match (self.back.ended(), self.held()) {
            (Some(_), _) => {}
            (None, Some(finish)) => order.push(finish)?,
            (None, None) => self.push_all(&mut order, oldest)?,
        }
        order.push(Command::Commit)?;
        Ok(order)
    }

    /// The pc of the instruction that retires next.
    pub(crate) fn next_retired(&self) -> u32 {
        self.back.pc()
    }

    // The first of the units that holds no job, if one does not.
    fn idle(&self) -> Option<usize> {
        for unit in 0..PLAYERS {
            if self.finish_of(unit).is_none() {
                return Some(unit);
            }
        }
        None
    }

    // The command for a station's tenant, where this unit holds no job.
    fn push_of_station(
        &mut self,
        choices: &mut Vec<Command>,
        station: u32,
        idle: Option<usize>,
    ) -> Result<(), AllocError>
        requires { station < self.old.core.sizes.ring }
        ensures { OnOk result (OnlyLooked self.old self.new) }
    {
        let row = self.row(station as usize);
        if let Some(choice) = choice_of_row(self.program, station, &row, idle) {
            choices.push(choice)?;
        }
        Ok(())
    }

    // The commands for the tenants of all stations, and the finishes of jobs that units hold.
    fn push_of_stations(&mut self, choices: &mut Vec<Command>) -> Result<(), AllocError>
        ensures { OnOk result (MayHaveLooked self.old self.new) }
    {
        let idle = self.idle();
        let ring = self.core.ring();
        for station in 0..ring as u32 {
            self.push_of_station(choices, station, idle)?;
        }
        for unit in 0..PLAYERS {
            if let Some(finish) = self.finish_of(unit) {
                choices.push(finish)?;
            }
        }
        Ok(())
    }

    // A turn, where a station is free, and an instruction stands at the next pc.
    fn push_turn(&mut self, choices: &mut Vec<Command>) -> Result<(), AllocError>
        ensures { OnOk result (OnlyLooked self.old self.new) }
    {
        let (head, ahead) = self.ends();
        if head.free > 0 && self.program.fetch(ahead.pc).is_some() {
            choices.push(Command::Turn(None))?;
        }
        Ok(())
    }

    // A commit, where it may find something to do or nothing else makes sense.
    fn push_commit(&mut self, choices: &mut Vec<Command>) -> Result<(), AllocError>
        ensures { OnOk result (OnlyLooked self.old self.new) }
    {
        let oldest = self.oldest();
        if may_commit(&oldest) || choices.is_empty() {
            choices.push(Command::Commit)?;
        }
        Ok(())
    }

    /// The commands that make sense now; none where the run has ended.
    pub(crate) fn choices(&mut self, alloc: Global) -> Result<Option<Vec<Command>>, AllocError>
        ensures looks { OnOk result (MayHaveLooked self.old self.new) }
        ensures ended { IfOk result (λ found. IfNone found (IsSome self.new.commits.ended)) }
    {
        if self.back.ended().is_some() {
            return Ok(None);
        }
        let mut choices = Vec::new(alloc);
        self.push_turn(&mut choices)?;
        self.push_of_stations(&mut choices)?;
        self.push_commit(&mut choices)?;
        Ok(Some(choices))
    }
}
