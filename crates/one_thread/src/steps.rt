//! The steps of a bench, one by one: which are possible, and one of them made.
ghost use Rattle.std.specs.Prelude.{◌≡◌, ◌<◌, ◌-◌, ◌^◌};
ghost use Rattle.one_thread.specs.Steps.{AreNextSteps, IsNextStep, Makes, MayMake};
ghost use Rattle.one_thread.specs.Turns.{Falls, SizesStay};

use crate::bench::{Bench, Turn};
use crate::possible::{Step, Steps};
use instructions::Predictor;

impl<'a, P: Predictor + Drop> Bench<'a, P> {
    /// All steps that are possible, in their order: the recovery from the oldest miss, the next let, the execution of
    /// each tenant that can be claimed, the load of each that is not blocked, the oldest tenant's retirement; the older
    /// tenants before the younger ones. A unit that has ended has none.
    pub fn steps(&self) -> Steps
        ensures { AreNextSteps self.now.pipeline result.items }
    {
        match self.pipeline.over {
            None => self.pipeline.possible_steps(),
            Some(_) => Steps::new(),
        }
    }

    /// The first step that is possible. None where the unit has ended, or nobody is live and the pc has no instruction.
    pub fn next_step(&self) -> Option<Step>
        ensures { IsNextStep self.now.pipeline result }
    {
        match self.pipeline.over {
            None => self.pipeline.first_step(),
            Some(_) => None,
        }
    }

    /// Makes a step that is possible, and answers what `turn` answers of it. The turn that makes the next step is
    /// `turn`.
    pub fn make(&mut self, step: Step) -> Turn
        requires count { self.old.pipeline.committed.count < 2 ^ 64 - 1 }
        requires can { MayMake self.old.pipeline step }
        ensures turn { Makes P.Predicts P.Learns self.old step result self.new }
        ensures falls { Falls result self.old.pipeline self.new.pipeline }
        ensures same { SizesStay self.old.pipeline self.new.pipeline }
    {
        self.pipeline.make(step, &mut self.predictor)
    }
}
