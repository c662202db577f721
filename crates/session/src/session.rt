//! A session: a core with all its seats in one hand.
mod choosing;
mod driving;
mod looking;
mod meeting;
mod reading;
mod renewing;
mod resting;
mod showing;
mod undoing;
mod working;

use crate::commands::Command;
use crate::reading::Line;
use crate::replies::Reply;
use crate::units::{UnitJob, end_units, no_units};
use back::{Back, Mark, OfProgram, Snapper};
use front::Front;
use instructions::{Config, End, Memory, Predictor, Program};
use station::{Core, UnitSeat};
use std::alloc::Global;
use std::marker::Model;
use std::sync::Wait;

/// What a session began with, and the commands since that may have changed something, the oldest first.
#[derive(Drop)]
pub(crate) struct Past<P> {
    config: Config,
    predictor: P,
    lines: Vec<Line>,
}

/// A core, its front, its back with a snapper, and its units, each made at its first claim. One more
/// seat meets each caller before and after its call, so that all of them have seen one history.
pub struct Session<'a, P: Predictor + Drop, J: OfProgram> {
    core: Core,
    program: &'a Program,
    // has seen all that was done
    all: UnitSeat,
    front: Front<'a, P>,
    back: Back<J>,
    snapper: Snapper<J>,
    mark: Option<Mark>,
    // the front has answered that nobody is live, and has not turned or recovered since
    rested: bool,
    units: Vec<Option<UnitJob>>,
    past: Past<P>,
}

impl<'a, P: Predictor + Drop, J: OfProgram> Model for Session<'a, P, J> {
    ghost use Rattle.std.specs.Prelude.{vec_len};
    ghost use Rattle.session.specs.Sessions.{IsOneCore, TheSession};

    ghost Value = { TheSession };

    ghost view = { λ s. record {
      core = s.core;
      seen = s.all.seen;
      units = s.units.items;
      commits = s.back;
      snapper = s.snapper;
      mark = s.mark;
      fronts = s.front.seen;
      touched = s.front.touched;
      trained_upto = s.front.trained_upto;
      rested = s.rested;
      config = s.past.config;
      lines = s.past.lines.items;
    } };

    ghost invariant = { λ s. IsOneCore J.program s.core s.program.now s.all s.front.core s.front.rested s.rested s.back
        s.units.items (vec_len s.units) };
}

impl<'a, P: Predictor + Copy + Drop, J: OfProgram> Session<'a, P, J> {
    ghost use Rattle.std.specs.Prelude.{◌≡◌, IfOk};
    ghost use Rattle.session.specs.Sessions.{IsStartOfSession};

    /// A session at the start of a program. No unit is made yet.
    pub fn new(
        alloc: Global,
        program: &'a Program,
        config: &Config,
        predictor: P,
    ) -> Result<Self, Memory>
        requires { program.now ≡ J.program }
        ensures { IfOk result (λ s. IsStartOfSession program.now config.now s) }
    {
        let (core, front_seat, back_seat, all) = Core::make(alloc, program, config)?;
        let units = no_units(alloc)?;
        let front = Front::new(&core, front_seat, program, predictor);
        match Back::<J>::new(alloc, &core, back_seat, program, config) {
            Ok((back, snapper)) => Ok(Session {
                core,
                program,
                all,
                front,
                back,
                snapper,
                mark: None,
                rested: false,
                units,
                past: Past {
                    config: *config,
                    predictor,
                    lines: Vec::new(alloc),
                },
            }),
            Err((memory, _)) => {
                end_units(units);
                Err(memory)
            }
        }
    }
}

impl<'a, P: Predictor + Drop, J: OfProgram> Session<'a, P, J> {
    ghost use Rattle.std.specs.Prelude.{◌≡◌, ◌≤◌};
    ghost use Rattle.back.specs.Backs.{back_state};
    ghost use Rattle.back.specs.Ends.{EndIsInOrder, ending_of};
    ghost use Rattle.inorder.specs.Runs.{state_in};
    ghost use Rattle.session.specs.Sessions.{IsReplied};

    /// Makes the call that a command asks for, if that is allowed. The core stays, unless it is renewed.
    pub fn answer<R: Wait>(&mut self, wait: &R, alloc: Global, command: Command) -> Reply
        ensures { IsReplied self.old self.new command result }
    {
        match command {
            Command::Turn(given) => self.turn(given),
            Command::Recover => self.recover(),
            Command::Claim(unit, station) => self.claim(unit, station),
            Command::Finish(unit, station) => self.finish(unit, station),
            Command::Refresh => self.refresh(),
            Command::RefreshAt(station) => self.refresh_at(station),
            Command::Commit => self.commit(),
            Command::Show => self.show(wait),
            Command::Take => self.take(),
            Command::Learn => self.learn(),
            Command::Look(station) => self.look(station),
            Command::Creator(register) => self.creator(register),
            Command::Touched => self.touched(),
            Command::Info(station) => self.info(station),
            Command::Operand(station, k) => self.operand(station, k),
            Command::Link(station, k) => self.link(station, k),
            Command::Station(station) => self.station(station),
            Command::Ring => self.ring_told(),
            Command::Rest => self.rest(),
            Command::Meet(one, other) => self.meet(one, other),
            Command::Report => self.report(alloc),
            Command::Renew => self.renew(alloc),
        }
    }

    /// The program that it runs.
    pub fn program(&self) -> &Program
        ensures { result.now ≡ self.now.core.program }
    {
        let _ = &self.core;
        self.program
    }

    /// How many stations there are.
    pub fn ring(&self) -> usize
        ensures value { result ≡ self.now.core.sizes.ring }
        ensures least { 2 ≤ result }
        ensures most { result ≤ 32 }
    {
        self.core.ring()
    }

    /// Ends the back, and gives the committed state.
    pub fn end<R: Wait>(self, wait: &R) -> End
        ensures in_order { EndIsInOrder J.program result }
        ensures state { state_in result ≡ back_state self.entry.commits }
        ensures outcome { result.outcome ≡ ending_of self.entry.commits.ended }
    {
        let Session {
            core: _,
            program: _,
            all: _,
            front: _,
            back,
            snapper: _,
            mark: _,
            rested: _,
            units,
            past: _,
        } = self;
        end_units(units);
        back.end(wait)
    }
}
