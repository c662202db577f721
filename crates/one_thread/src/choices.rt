//! Turns in any order: a chooser names the step that each of them makes.
ghost use Rattle.std.specs.Prelude.{◌≡◌, ◌<◌, ◌≤◌, ◌-◌, ◌^◌, ◌%◌, length, slice_get, Some};
ghost use Rattle.inorder.specs.Runs.{end_state};
ghost use Rattle.one_thread.specs.Changes.{run_from};
ghost use Rattle.one_thread.specs.Choices.{HasRunBy, IsTurnBy};
ghost use Rattle.one_thread.specs.Turns.{Falls, SizesStay};

use crate::bench::{Bench, Turn};
use crate::chooser::Chooser;
use crate::possible::Step;
use instructions::{End, Ending, Predictor, Stop};

// The step that a number names, modulo how many there are.
fn pick(steps: &[Step], choice: u32) -> Step
    requires { 0 < length steps.now }
    ensures { slice_get steps.now (choice % length steps.now) ≡ Some result }
{
    let at = choice as usize % steps.len();
    steps[at]
}

impl<'a, P: Predictor + Drop> Bench<'a, P> {
    /// Makes one of the steps that are possible, that which the chooser names: a recovery from the oldest miss, the
    /// next let, the execution of a tenant that can be claimed, the load of one that is not blocked, the oldest
    /// tenant's retirement. They stand in this order, the older tenants before the younger ones, and the chooser is asked
    /// once, by them. A unit that has ended, or has nobody live and no instruction to go on with,
    /// answers Over and asks nobody.
    pub fn turn_by<C: Chooser>(&mut self, chooser: &mut C) -> Turn
        requires { self.old.pipeline.committed.count < 2 ^ 64 - 1 }
        ensures turn { IsTurnBy P.Predicts P.Learns C.Chooses
            self.old chooser.old result self.new chooser.new }
        ensures falls { Falls result self.old.pipeline self.new.pipeline }
        ensures same { SizesStay self.old.pipeline self.new.pipeline }
    {
        if let Some(code) = self.pipeline.over {
            return Turn::Over(code);
        }
        let steps = self.pipeline.possible_steps();
        if steps.is_empty() {
            return Turn::Over(Stop::BadPc);
        }
        let shown = steps.as_slice();
        let choice = chooser.choose(shown);
        let step = pick(shown, choice);
        self.pipeline.make(step, &mut self.predictor)
    }

    // Turns by choice until it stops, or its count has reached a limit.
    fn run_to_by<C: Chooser>(&mut self, limit: u64, chooser: &mut C) -> Ending
        ensures end { (result, self.new.pipeline.committed) ≡ run_from self.old.pipeline limit }
        ensures chooser { HasRunBy P.Predicts P.Learns C.Chooses limit
            self.old chooser.old chooser.new (result, self.new.pipeline.committed) }
    {
        loop {
            if limit <= self.pipeline.committed.count() {
                return Ending::Limit;
            }
            if let Turn::Over(code) = self.turn_by(chooser) {
                return Ending::Stop(code);
            }
        }
    }

    /// Runs by choice until it stops, or its count has reached a limit: as the in-order machine does, whatever the
    /// chooser names.
    pub fn run_by<C: Chooser>(self, limit: u64, chooser: &mut C) -> End
        ensures end { end_state result ≡ run_from self.entry.pipeline limit }
        ensures chooser { HasRunBy P.Predicts P.Learns C.Chooses limit
            self.entry chooser.old chooser.new (end_state result) }
    {
        let mut bench = self;
        let outcome = bench.run_to_by(limit, chooser);
        let committed = bench.pipeline.committed;
        committed.into_end(outcome)
    }
}
