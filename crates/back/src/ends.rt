//! The end of a back.
ghost use Rattle.std.specs.Prelude.{◌≡◌};
ghost use Rattle.back.specs.Backs.{back_state};
ghost use Rattle.back.specs.Ends.{EndIsInOrder, ending_of};
ghost use Rattle.inorder.specs.Runs.{state_in};

use crate::backs::Back;
use instructions::{End, Ending};
use snapshots::OfProgram;
use std::sync::Wait;

impl<J: OfProgram> Back<J> {
    /// The outcome of the run if it ends now: the code that `commit` answered with `Ended`, or `Limit` where it did not.
    pub fn outcome(&self) -> Ending
        ensures { result ≡ ending_of self.now.ended }
    {
        match self.ended {
            Some(code) => Ending::Stop(code),
            None => Ending::Limit,
        }
    }

    /// Ends the run, and gives the committed state, which is that of the machine in order after n instructions: between
    /// two halves of an instruction the state before it. The outcome is `Limit` unless `commit` answered `Ended`. The call
    /// waits until no snapper reads; from then on each is answered `Gone`.
    pub fn end<R: Wait>(self, wait: &R) -> End
        ensures in_order { EndIsInOrder J.program result }
        ensures state { state_in result ≡ back_state self }
        ensures outcome { result.outcome ≡ ending_of self.ended }
    {
        let outcome = self.outcome();
        let Back {
            seat: _,
            committed,
            low: _,
            head: _,
            ended: _,
            publisher,
        } = self;
        publisher.end(wait);
        committed.into_end(outcome)
    }
}
