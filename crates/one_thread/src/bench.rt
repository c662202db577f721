//! The one-thread unit, as its callers see it.
ghost use Rattle.std.specs.Prelude.{◌≡◌, ◌<◌, ◌≤◌, ◌-◌, ◌^◌, nat_lt, length, slice_get, IfOk};
ghost use Rattle.inorder.specs.Machine.{start};
ghost use Rattle.inorder.specs.Runs.{end_state};
ghost use Rattle.one_thread.specs.Changes.{run_from};
ghost use Rattle.one_thread.specs.StandsFor.{StandsFor, StandsForSome};
ghost use Rattle.inorder.specs.Unit.{empty_unit};
ghost use Rattle.one_thread.specs.Order.{IsTurn};
ghost use Rattle.one_thread.specs.Turns.{Falls, SizesStay};

use crate::chooser::Order;
use crate::pipeline::Pipeline;
use crate::station::Station;
use instructions::{Config, End, Memory, Predictor, Program, Stop};
use std::alloc::Global;
use std::marker::Model;

/// What a turn did, and which tenant it worked on: by its age, 0 for the oldest live one.
#[derive(Clone, Copy, Debug, PartialEq, Eq)]
pub enum Turn {
    /// All tenants after the oldest miss, which has this age, were squashed, and it was mended.
    Recovered(usize),
    /// The next instruction has entered a station.
    Let,
    /// The tenant of this age was claimed and finished: by `Bench::turn` the oldest that can be claimed.
    Ran(usize),
    /// The load of this age, which is not blocked, got its value: by `Bench::turn` the oldest.
    Loaded(usize),
    /// The oldest tenant retired, and was the first of two halves: what it made waits for the second.
    Halved,
    /// The oldest tenant retired, and its instruction was counted.
    Retired,
    /// A stop has retired, in this turn or before; or nobody is live, and there is no instruction to go on with.
    Over(Stop),
}

/// An out-of-order unit that one caller turns. Its predictor is asked for the next pc of a conditional branch,
/// `jr` or `jalr` when that is let, and told how such an instruction went on when its station is let again, if
/// it has retired.
#[derive(Drop)]
pub struct Bench<'a, P: Predictor + Drop> {
    pub(crate) pipeline: Pipeline<'a>,
    pub(crate) predictor: P,
}

impl<'a, P: Predictor + Drop> Model for Bench<'a, P> {
    ghost use Rattle.one_thread.specs.StandsFor.{StandsForSome};
    ghost use Rattle.one_thread.specs.Turns.{BenchFields};

    ghost Value = { BenchFields P };

    ghost view = { λ b. record { pipeline = b.pipeline; predictor = b.predictor } };

    ghost invariant = { λ b. StandsForSome b.pipeline };
}

impl<'a, P: Predictor + Drop> Bench<'a, P> {
    /// The unit at the start of a program.
    pub fn new(
        alloc: Global,
        program: &'a Program,
        config: &Config,
        predictor: P,
    ) -> Result<Self, Memory>
        ensures start { IfOk result (λ b. b.pipeline.committed ≡ start program.now) }
        ensures program { IfOk result (λ b. b.pipeline.program.now ≡ program.now) }
        ensures predictor { IfOk result (λ b. b.predictor ≡ predictor) }
        ensures ring { IfOk result (λ b. b.pipeline.ring ≡ config.now.ring) }
        ensures queue { IfOk result (λ b. b.pipeline.queue ≡ config.now.queue) }
        ensures tag { IfOk result (λ b. b.pipeline.first_tag ≡ config.now.first_tag) }
        ensures fresh { IfOk result (λ b. StandsFor b.pipeline empty_unit) }
    {
        let pipeline = Pipeline::new(alloc, program, config)?;
        Ok(Bench {
            pipeline,
            predictor,
        })
    }

    /// The count of instructions can still grow.
    pub fn has_room(&self) -> bool
        ensures { result ≡ nat_lt self.now.pipeline.committed.count (2 ^ 64 - 1) }
    {
        self.pipeline.committed.count() < 0xffff_ffff_ffff_ffff
    }

    /// How many instructions were counted. At any time some unit that legal steps reach stands behind the fields.
    pub fn count(&self) -> u64
        ensures value { result ≡ self.now.pipeline.committed.count }
        ensures unit { StandsForSome self.now.pipeline }
    {
        let state = &self.pipeline.committed;
        state.count()
    }

    /// How many tenants are live.
    pub fn live(&self) -> usize
        ensures { result ≡ length self.now.pipeline.window }
    {
        self.pipeline.window.len()
    }

    /// A live tenant by its age, the oldest at 0; nothing after the youngest.
    pub fn tenant(&self, age: usize) -> Option<Station>
        ensures { result ≡ slice_get self.now.pipeline.window age }
    {
        self.pipeline.window.at(age)
    }

    /// Does the first turn that is possible, in the order of `Turn`. The turn that retires a stop answers Over,
    /// and so does each later one, which changes nothing, and each where nobody is live and the pc has no instruction.
    #[inline(always)]
    pub fn turn(&mut self) -> Turn
        requires { self.old.pipeline.committed.count < 2 ^ 64 - 1 }
        ensures turn { IsTurn P.Predicts P.Learns self.old result self.new }
        ensures falls { Falls result self.old.pipeline self.new.pipeline }
        ensures same { SizesStay self.old.pipeline self.new.pipeline }
    {
        self.pipeline.turn(&mut self.predictor)
    }

    /// Runs until it stops, or its count has reached a limit, each turn the first that is possible: as the in-order
    /// machine does.
    pub fn run(self, limit: u64) -> End
        ensures { end_state result ≡ run_from self.entry.pipeline limit }
    {
        self.run_by(limit, &mut Order::First)
    }
}
