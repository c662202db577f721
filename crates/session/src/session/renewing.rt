//! A session whose core is renewed.
use super::{Past, Session};
use crate::renewal::{Stage, renew};
use crate::replies::{Refusal, Reply};
use crate::units::{UnitJob, forget_units};
use back::{Mark, OfProgram, Snapper};
use core::mem::replace_with;
use instructions::{Predictor, Program};
use station::what_is_seen_is_legal;
use std::alloc::Global;

impl<'a, P: Predictor + Drop, J: OfProgram> Session<'a, P, J> {
    ghost use Rattle.std.specs.Prelude.{◌≡◌, None, false, true, vec_len};
    ghost use Rattle.session.specs.Renewals.{SeatsAreAt};
    ghost use Rattle.session.specs.Sessions.{IsReplied};
    ghost use Rattle.session.specs.Units.{unit_count};
    ghost use Rattle.session.specs.Workers.{AreWorkers};
    ghost use Rattle.session.specs.declared.commands.Command.TheVariants.{Renew};
    ghost use Rattle.inorder.specs.History.{IsLegal};

    // The session with these parts, whose front has not rested.
    fn at(
        stage: Stage<'a, P, J>,
        program: &'a Program,
        snapper: Snapper<J>,
        mark: Option<Mark>,
        units: Vec<Option<UnitJob>>,
        past: Past<P>,
    ) -> Self
        requires named { stage.0.program ≡ J.program }
        requires program { program.now ≡ stage.0.program }
        requires at { SeatsAreAt stage.0 stage.1 stage.2.core stage.3 }
        requires workers { AreWorkers stage.0 units.items }
        requires places { vec_len units ≡ unit_count }
        ensures session { result ≡ record {
          core = stage.entry.0;
          seen = stage.entry.1.seen;
          units = units.items;
          commits = stage.entry.3;
          snapper = snapper;
          mark = mark;
          fronts = stage.entry.2.seen;
          touched = stage.entry.2.touched;
          trained_upto = stage.entry.2.trained_upto;
          rested = false;
          config = past.config;
          lines = past.lines.items;
        } }
        ensures legal { IsLegal stage.entry.0.program stage.entry.0.sizes stage.entry.1.seen }
    {
        let (core, all, front, back) = stage;
        what_is_seen_is_legal(&all);
        Session {
            core,
            program,
            all,
            front,
            back,
            snapper,
            mark,
            rested: false,
            units,
            past,
        }
    }

    // The session with another core, if there was memory for one.
    fn renewed(self, alloc: Global) -> (Self, Reply)
        requires rested { self.rested ≡ true }
        requires not_ended { self.commits.ended ≡ None }
        ensures { IsReplied self.entry result.0 Renew result.1 }
    {
        let Session {
            core,
            program,
            all,
            front,
            back,
            snapper,
            mark,
            rested: _,
            mut units,
            past,
        } = self;
        match renew(alloc, program, core, all, front, back) {
            Ok(stage) => {
                forget_units(&mut units);
                let session = Self::at(stage, program, snapper, mark, units, past);
                (session, Reply::Renewed)
            }
            Err(stage) => {
                let session = Self::at(stage, program, snapper, mark, units, past);
                (session, Reply::Memory)
            }
        }
    }

    pub(super) fn renew(&mut self, alloc: Global) -> Reply
        ensures { IsReplied self.old self.new Renew result }
    {
        if !self.rested {
            return Reply::Refused(Refusal::NoRest);
        }
        if self.back.ended().is_some() {
            return Reply::Refused(Refusal::HasEnded);
        }
        replace_with(self, alloc, Session::renewed)
    }
}
