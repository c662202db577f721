//! Dispatch.
ghost use Rattle.std.specs.Prelude.{◌≡◌, ◌<◌, ◌≤◌, ◌+◌, ◌%◌, Some, None};
ghost use Rattle.one_thread.specs.Ahead.{waiting_half as waiting_half_of};
ghost use Rattle.one_thread.specs.declared.bench.Turn.TheVariants.{Let};
ghost use Rattle.one_thread.specs.Changes.{NextOf};
ghost use Rattle.one_thread.specs.Decoding.{IsDecoded};
ghost use Rattle.one_thread.specs.StandsFor.{StandsForSome};
ghost use Rattle.one_thread.specs.Steps.{Makes};
ghost use Rattle.one_thread.specs.Turns.{Falls, SizesStay, fields};
ghost use Rattle.one_thread.specs.declared.possible.Step.TheVariants.{Let as LetStep};
ghost use Rattle.one_thread.specs.Window.{half_in, next_in};

use crate::decoded::Decoded;
use crate::fetch::fetch_at;
use crate::leaver::{guess, take_leaver};
use crate::pipeline::Pipeline;
use crate::station::Station;
use inorder::wrapped;
use instructions::{Half, Predictor};

/// The instruction that can be let, its half, and its pc.
#[derive(Clone, Copy)]
pub struct Fetched {
    pub instr: Decoded,
    pub half: Half,
    pub pc: u32,
}

// The half that comes next where nobody is live, by what waits for LO.
pub fn waiting_half(low: Option<u32>) -> Half
    ensures { result ≡ waiting_half_of low }
{
    match low {
        None => Half::Low,
        Some(_) => Half::High,
    }
}

impl<'a> Pipeline<'a> {
    /// The station of the tenant at `i`, live or to be let.
    pub(crate) fn station_at(&self, i: usize) -> usize
        requires oldest { self.now.oldest < self.now.ring }
        requires most { self.now.ring ≤ 32 }
        requires near { i ≤ self.now.ring }
        ensures value { result ≡ (self.now.oldest + i) % self.now.ring }
        ensures small { result < self.now.ring }
    {
        wrapped(self.oldest + i, self.ring)
    }

    // The pc where the path goes on, and the half that comes there.
    fn front(&self) -> (u32, Half)
        ensures pc { result.0 ≡ next_in self.now.committed.pc self.now.window }
        ensures half { result.1 ≡ half_in self.now.low self.now.window }
    {
        match self.window.last() {
            None => (self.committed.pc(), waiting_half(self.low)),
            Some(station) => (station.next, station.instr.half_behind(station.half)),
        }
    }

    /// The next instruction, if it can be let.
    pub(crate) fn next(&self) -> Option<Fetched>
        requires { IsDecoded self.now.code.items self.now.program.now }
        ensures { NextOf self.now result }
    {
        if self.ring <= self.window.len() {
            return None;
        }
        let (pc, half) = self.front();
        let instr = fetch_at(self.code.as_slice(), pc)?;
        if instr.is_access() && self.queue <= self.window.accesses() {
            return None;
        }
        Some(Fetched {
            instr: *instr,
            half,
            pc,
        })
    }

    /// Lets an instruction that can be let: a predictor is told of who has left its station, and asked.
    #[inline(always)]
    pub(crate) fn enters<P: Predictor>(&mut self, predictor: &mut P, next: Fetched)
        requires unit { StandsForSome self.old }
        requires open { self.old.over ≡ None }
        requires can { NextOf self.old (Some next) }
        ensures turn { Makes P.Predicts P.Learns
            (fields self.old predictor.old) (LetStep next) Let (fields self.new predictor.new) }
        ensures falls { Falls Let self.old self.new }
        ensures unit { StandsForSome self.new }
        ensures same { SizesStay self.old self.new }
    {
        let Fetched { instr, half, pc } = next;
        let station = self.station_at(self.window.len());
        let left = take_leaver(&mut self.leavers, station);
        let predicted = guess(predictor, left, &instr, half, pc);
        self.window
            .join(Station::let_at(&instr, half, pc, predicted));
    }
}
