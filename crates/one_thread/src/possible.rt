//! The steps that are possible, and one of them made.
ghost use Rattle.std.specs.Prelude.{◌≡◌, ◌<◌, ◌≤◌, ◌+◌, ◌-◌, ◌^◌, ◌++◌, length, None, slice_get};
ghost use Rattle.arrayvec.specs.ArrayVec.{array_vec_len};
ghost use Rattle.one_thread.specs.Changes.{NextOf, registers_of};
ghost use Rattle.one_thread.specs.Loads.{AreInside};
ghost use Rattle.one_thread.specs.Stages.{FirstMiss};
ghost use Rattle.one_thread.specs.Order.{IsTurn};
ghost use Rattle.one_thread.specs.StandsFor.{StandsForSome};
ghost use Rattle.one_thread.specs.Steps.{ArePossible, IsFirstStep, Makes, Permits, loads_of, next_let as let_steps, recovery as recoveries, retirement_of, runs_of};
ghost use Rattle.one_thread.specs.Turns.{Falls, SizesStay, fields};

use crate::bench::Turn;
use crate::dispatch::Fetched;
use crate::execute::{Ready, oldest_ready, sources_at};
use crate::memory_port::{Answered, oldest_answered, value_at};
use crate::pipeline::Pipeline;
use crate::window::Missed;
use arrayvec::ArrayVec;
use instructions::{Predictor, Stop};

/// A step that is possible, with what it takes to make it.
#[derive(Clone, Copy)]
pub enum Step {
    /// All tenants after the oldest miss are squashed, and it is mended.
    Recover(Missed),
    /// The next instruction is let.
    Let(Fetched),
    /// A tenant is claimed and finished.
    Run(Ready),
    /// A load gets its value.
    Load(Answered),
    /// The oldest tenant retires.
    Retire,
}

impl Default for Step {
    fn default() -> Step {
        Step::Retire
    }
}

/// The possible steps of a ring of 32: a recovery, a let, two for each tenant at the most, and a retirement.
pub type Steps = ArrayVec<Step, 67>;

// The recovery of a miss, if there is one.
fn push_recovery(steps: &mut Steps, miss: Option<Missed>)
    requires { array_vec_len steps.old < 67 }
    ensures items { steps.new.items ≡ steps.old.items ++ recoveries miss }
    ensures len { array_vec_len steps.new ≤ array_vec_len steps.old + 1 }
{
    if let Some(miss) = miss {
        steps.push(Step::Recover(miss));
    }
}

// The let of what can be let, if there is something.
fn push_let(steps: &mut Steps, next: Option<Fetched>)
    requires { array_vec_len steps.old < 67 }
    ensures items { steps.new.items ≡ steps.old.items ++ let_steps next }
    ensures len { array_vec_len steps.new ≤ array_vec_len steps.old + 1 }
{
    if let Some(next) = next {
        steps.push(Step::Let(next));
    }
}

impl<'a> Pipeline<'a> {
    // The execution of each tenant that can be claimed.
    fn push_runs(&self, steps: &mut Steps)
        requires { array_vec_len steps.old + length self.now.window ≤ 67 }
        ensures items { steps.new.items ≡ steps.old.items ++
            runs_of (registers_of self.now) self.now.window (length self.now.window) }
        ensures len { array_vec_len steps.new ≤
            array_vec_len steps.old + length self.now.window }
    {
        let ahead = self.ahead();
        for at in 0..self.window.len() {
            if let Some(operands) = sources_at(&self.window, &ahead, at) {
                steps.push(Step::Run(Ready { at, operands }));
            }
        }
    }

    // The load of each tenant that is not blocked.
    fn push_loads(&self, steps: &mut Steps)
        requires inside { AreInside (length self.now.committed.memory) self.now.window }
        requires room { array_vec_len steps.old + length self.now.window ≤ 67 }
        ensures items { steps.new.items ≡ steps.old.items ++ loads_of (registers_of self.now)
            self.now.committed.memory self.now.window (length self.now.window) }
        ensures len { array_vec_len steps.new ≤
            array_vec_len steps.old + length self.now.window }
    {
        let ahead = self.ahead();
        for at in 0..self.window.len() {
            if let Some(value) = value_at(&self.window, &ahead, at) {
                steps.push(Step::Load(Answered { at, value }));
            }
        }
    }

    // The retirement of the oldest tenant, if that can retire.
    fn push_retirement(&self, steps: &mut Steps)
        requires { array_vec_len steps.old < 67 }
        ensures { steps.new.items ≡ steps.old.items ++
            retirement_of (slice_get self.now.window 0) }
    {
        if self.window.is_resolved(0) {
            steps.push(Step::Retire);
        }
    }

    /// All steps that are possible, in their order.
    pub(crate) fn possible_steps(&self) -> Steps
        requires { StandsForSome self.now }
        ensures { ArePossible self.now result.items }
    {
        let mut steps = Steps::new();
        push_recovery(&mut steps, self.window.oldest_miss());
        push_let(&mut steps, self.next());
        self.push_runs(&mut steps);
        self.push_loads(&mut steps);
        self.push_retirement(&mut steps);
        steps
    }

    /// The first of the steps that are possible.
    #[inline(always)]
    pub(crate) fn first_step(&self) -> Option<Step>
        requires { StandsForSome self.now }
        ensures { IsFirstStep self.now result }
    {
        if let Some(miss) = self.window.oldest_miss() {
            return Some(Step::Recover(miss));
        }
        if let Some(next) = self.next() {
            return Some(Step::Let(next));
        }
        let ahead = self.ahead();
        if let Some(ready) = oldest_ready(&self.window, &ahead) {
            return Some(Step::Run(ready));
        }
        if let Some(answered) = oldest_answered(&self.window, &ahead) {
            return Some(Step::Load(answered));
        }
        if self.window.is_resolved(0) {
            return Some(Step::Retire);
        }
        None
    }

    /// Makes a step that is possible.
    pub(crate) fn make<P: Predictor>(&mut self, step: Step, predictor: &mut P) -> Turn
        requires unit { StandsForSome self.old }
        requires open { self.old.over ≡ None }
        requires count { self.old.committed.count < 2 ^ 64 - 1 }
        requires can { Permits self.old step }
        ensures turn { Makes P.Predicts P.Learns
            (fields self.old predictor.old) step result (fields self.new predictor.new) }
        ensures falls { Falls result self.old self.new }
        ensures unit { StandsForSome self.new }
        ensures same { SizesStay self.old self.new }
    {
        match step {
            Step::Recover(miss) => {
                self.window.recover(miss);
                Turn::Recovered(miss.at)
            }
            Step::Let(next) => {
                self.enters(predictor, next);
                Turn::Let
            }
            Step::Run(ready) => {
                self.claim(ready);
                Turn::Ran(ready.at)
            }
            Step::Load(answered) => {
                self.answers(answered);
                Turn::Loaded(answered.at)
            }
            Step::Retire => self.retires(),
        }
    }

    /// Makes the first of the steps that are possible, if the unit has not ended.
    #[inline(always)]
    pub fn turn<P: Predictor>(&mut self, predictor: &mut P) -> Turn
        requires unit { StandsForSome self.old }
        requires count { self.old.committed.count < 2 ^ 64 - 1 }
        ensures turn { IsTurn P.Predicts P.Learns
            (fields self.old predictor.old) result (fields self.new predictor.new) }
        ensures falls { Falls result self.old self.new }
        ensures unit { StandsForSome self.new }
        ensures same { SizesStay self.old self.new }
    {
        if let Some(code) = self.over {
            return Turn::Over(code);
        }
        let Some(step) = self.first_step() else {
            return Turn::Over(Stop::BadPc);
        };
        self.make(step, predictor)
    }
}
