//! The commit thread.
ghost use Rattle.std.specs.Prelude.{◌≡◌};
ghost use Rattle.back.specs.Backs.{back_state};

mod renewal;
mod turning;

use crate::ends::{Refusal, Run};
use back::{Back, OfProgram};
use counts::CountSeat;
use hints::Ring;
use instructions::Ending;
use std::marker::Model;
use std::sync::Wait;
use workers::{Bounds, RunState, Turns};

/// After this number of fruitless turns a thread lets another one run.
pub const PATIENCE: u32 = 4;

/// The commit side of a run: the back, the seat that it counts with, its turns, and what the run would be refused for.
pub struct Committer<K: OfProgram + Bounds + Ring> {
    back: Back<K>,
    count: CountSeat,
    limit: u32,
    turns: Turns,
    // a thread until those of a term have begun, memory while they work, and nothing once the run is over
    wanting: Option<Refusal>,
}

impl<K: OfProgram + Bounds + Ring> Model for Committer<K> {
    ghost use Rattle.committing.specs.Committing.{IsCommitter, TheCommitter, committer_of};

    ghost Value = { TheCommitter };

    ghost view = { λ c. committer_of c.back c.turns c.wanting };

    ghost invariant = { λ c.
        IsCommitter K.counts K.config (committer_of c.back c.turns c.wanting) c.count c.limit };
}

impl<K: OfProgram + Bounds + Ring> Committer<K> {
    ghost use Rattle.std.specs.Prelude.{◌≡◌, IfSome, None, Some};
    ghost use Rattle.committing.specs.Committing.{HasCounted, committer_of};
    ghost use Rattle.committing.specs.RunEnds.{HasRun, TellsRenewals};
    ghost use Rattle.workers.specs.Turns.{untaken};
    ghost use Rattle.inorder.specs.History.{renewals as renewals_in};

    pub fn new(back: Back<K>, count: CountSeat, limit: u32, turns: u32) -> Self
        requires count { HasCounted K.counts back count }
        requires limit { limit ≡ (K.config).limit }
        requires turns { turns ≡ (K.config).turns }
        requires start { (back_state back).count ≡ 0 }
        requires going { back.ended ≡ None }
        ensures { result ≡ committer_of back (untaken turns) (Some Refusal.Thread) }
    {
        Committer {
            back,
            count,
            limit,
            turns: Turns::new(turns),
            wanting: Some(Refusal::Thread),
        }
    }

    /// How the run ended, where all other threads have ended. A run of which not all threads could be started is
    /// refused.
    pub fn end<R: Wait>(self, wait: &R, state: &RunState<K>) -> Run
        ensures run { HasRun K.program K.config result }
        ensures refused { IfSome self.wanting (λ refusal. result ≡ Run.Refused refusal) }
        ensures renewals { TellsRenewals (renewals_in self.back.seen) result }
    {
        let Committer {
            back,
            mut count,
            limit: _,
            turns: _,
            wanting,
        } = self;
        let end = back.end(wait);
        let tally = state.counts.read(&mut count);
        match (wanting, end.outcome) {
            (Some(refusal), _) => Run::Refused(refusal),
            (None, Ending::Stop(_)) => Run::Ended(end, tally),
            (None, Ending::Limit) => Run::LimitReached(end, tally),
        }
    }
}
