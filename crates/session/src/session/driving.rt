//! The calls of a session that drive its core: by the front and by the back. Each stands between two meetings with the
//! seat that has seen all.
ghost use Rattle.std.specs.Prelude.{◌≡◌};
ghost use Rattle.front.specs.Fronts.{TurnsTo};
ghost use Rattle.front.specs.Training.{given_or};

use super::Session;
use crate::replies::{Refreshed, Refusal, Reply};
use back::{Commit as Committed, OfProgram};
use front::{Front, Turn as Turned};
use instructions::Predictor;
use station::Core;

// A turn by the front. A given guess stands in for the predictor's.
fn turn_by<P: Predictor + Drop>(core: &Core, front: &mut Front<'_, P>, given: Option<u32>) -> Turned
    requires { front.old.core ≡ core.now }
    ensures core { front.new.core ≡ core.now }
    ensures trained_upto { front.new.trained_upto ≡ front.old.trained_upto }
    ensures reply { TurnsTo (given_or given P.Predicts) P.Learns core.now front.old front.new
        result }
{
    match given {
        Some(next) => front.turn_to(core, next),
        None => front.turn(core),
    }
}

impl<'a, P: Predictor + Drop, J: OfProgram> Session<'a, P, J> {
    ghost use Rattle.std.specs.Prelude.{◌≡◌, ◌<◌, ◌-◌, ◌^◌};
    ghost use Rattle.back.specs.Backs.{back_state};
    ghost use Rattle.session.specs.Replies.{IsCommit, IsTurn};
    ghost use Rattle.session.specs.Sessions.{BackHasStepped, FrontHasStepped, IsReplied};
    ghost use Rattle.session.specs.declared.commands.Command.TheVariants.{Commit, Recover, Refresh, RefreshAt, Turn};

    // A turn of the front. A given guess stands in for the predictor's.
    fn dispatch(&mut self, given: Option<u32>) -> Turned
        ensures stays { FrontHasStepped self.old self.new }
        ensures reply { IsTurn self.old.core given self.old.seen self.new.seen result }
    {
        self.rested = false;
        let (core, all, front) = (&self.core, &mut self.all, &mut self.front);
        front.meet(core, all);
        let answer = turn_by(core, front, given);
        front.meet(core, all);
        answer
    }

    pub(super) fn turn(&mut self, given: Option<u32>) -> Reply
        ensures { IsReplied self.old self.new (Turn given) result }
    {
        let turn = self.dispatch(given);
        let info = self.info_of_let(turn);
        Reply::Turn(turn, info)
    }

    pub(super) fn recover(&mut self) -> Reply
        ensures { IsReplied self.old self.new Recover result }
    {
        self.rested = false;
        let (core, all, front) = (&self.core, &mut self.all, &mut self.front);
        front.meet(core, all);
        let answer = front.recover(core);
        front.meet(core, all);
        Reply::Recovery(answer)
    }

    pub(super) fn refresh(&mut self) -> Reply
        ensures { IsReplied self.old self.new Refresh result }
    {
        let (core, all, back) = (&self.core, &mut self.all, &mut self.back);
        back.meet(core, all);
        let answer = back.refresh(core);
        let woken = back.woken();
        back.meet(core, all);
        Reply::Refresh(Refreshed { answer, woken })
    }

    pub(super) fn refresh_at(&mut self, station: u32) -> Reply
        ensures { IsReplied self.old self.new (RefreshAt station) result }
    {
        if self.core.ring() <= station as usize {
            return Reply::Refused(Refusal::NoStation);
        }
        let (core, all, back) = (&self.core, &mut self.all, &mut self.back);
        back.meet(core, all);
        let answer = back.refresh_at(core, station as usize);
        let woken = back.woken();
        back.meet(core, all);
        Reply::Refresh(Refreshed { answer, woken })
    }

    // A commit by the back.
    fn retire(&mut self) -> Committed
        requires { (back_state self.old.commits).count < 2 ^ 64 - 1 }
        ensures stays { BackHasStepped self.old self.new }
        ensures shown { self.new.commits.shown ≡ self.old.commits.shown }
        ensures reply { IsCommit self.old.commits self.new.commits self.old.seen
            self.new.seen result }
    {
        let (core, all, back) = (&self.core, &mut self.all, &mut self.back);
        back.meet(core, all);
        let answer = back.commit(core);
        back.meet(core, all);
        answer
    }

    pub(super) fn commit(&mut self) -> Reply
        ensures { IsReplied self.old self.new Commit result }
    {
        if self.back.n() == u64::MAX {
            return Reply::Refused(Refusal::NoCount);
        }
        let oldest = self.oldest();
        let answer = self.retire();
        Reply::Commit(answer, oldest)
    }
}
