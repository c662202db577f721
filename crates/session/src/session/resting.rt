//! Rests of a session.
use super::Session;
use crate::front_calls;
use crate::replies::Reply;
use back::OfProgram;
use instructions::Predictor;

impl<'a, P: Predictor + Drop, J: OfProgram> Session<'a, P, J> {
    ghost use Rattle.session.specs.Sessions.{IsReplied};
    ghost use Rattle.session.specs.declared.commands.Command.TheVariants.{Rest};

    pub(super) fn rest(&mut self) -> Reply
        ensures { IsReplied self.old self.new Rest result }
    {
        let rest = front_calls::rest(&self.core, &mut self.all, &mut self.front);
        if let front::Rest::Idle = rest {
            self.rested = true;
        }
        Reply::Rest(rest)
    }
}
