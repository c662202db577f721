//! Execution.
ghost use Rattle.std.specs.Prelude.{⊤, ◌≡◌, ◌<◌, ◌≤◌, [], ◌∷◌, ◌++◌, length, take, slice_get, Some, None};
ghost use Rattle.one_thread.specs.Changes.{CanClaim, RunsAt};
ghost use Rattle.one_thread.specs.Producers.{gives};
ghost use Rattle.one_thread.specs.Stages.{FirstReady};
ghost use Rattle.one_thread.specs.Window.{operands_in, station_after};

use crate::pipeline::Pipeline;
use crate::source::source;
use crate::station::{Stage, Station};
use crate::window::Window;
use crate::with_pending_low::WithPendingLow;
use instructions::{Kind, Outcome, outcome_of};

/// The sources of a tenant that can be claimed; 0 for one that is not there and not needed.
#[derive(Clone, Copy)]
pub struct Operands {
    pub a: u32,
    pub b: u32,
}

/// The place of a tenant that can be claimed, and its sources.
#[derive(Clone, Copy)]
pub struct Ready {
    pub at: usize,
    pub operands: Operands,
}

// What a station needs, if it can be claimed after the first `i`.
#[inline(always)]
fn sources(window: &Window, ahead: &WithPendingLow, i: usize, station: &Station) -> Option<Operands>
    requires there { i < length window.now }
    requires is { slice_get window.now i ≡ Some station.now }
    ensures { result ≡ operands_in ahead.now.registers (take i window.now) station.now }
{
    let Stage::Open = station.stage else {
        return None;
    };
    let b = source(window, ahead, i, station.instr.second());
    let b = match station.instr.kind() {
        Kind::Stores => b.unwrap_or(0),
        _ => b?,
    };
    let a = source(window, ahead, i, station.instr.first())?;
    Some(Operands { a, b })
}

/// What the station at `i` needs, if it can be claimed.
#[inline(always)]
pub fn sources_at(window: &Window, ahead: &WithPendingLow, i: usize) -> Option<Operands>
    requires { i ≤ length window.now }
    ensures { result ≡ gives (operands_in ahead.now.registers) window.now i }
{
    match window.peek(i) {
        None => None,
        Some(station) => sources(window, ahead, i, station),
    }
}

/// The oldest station that can be claimed.
#[inline(always)]
pub fn oldest_ready(window: &Window, ahead: &WithPendingLow) -> Option<Ready>
    ensures { FirstReady ahead.now.registers window.now result }
{
    for at in window.resolved()..window.len() {
        if let Some(operands) = sources_at(window, ahead, at) {
            return Some(Ready { at, operands });
        }
    }
    None
}

// A station with its outcome.
fn finished(station: &Station, outcome: Outcome) -> Station
    ensures { result ≡ station_after station.now outcome }
{
    let (stage, made) = match outcome {
        Outcome::Value(v) | Outcome::Pair(v, _) => (Stage::Done, Some(v)),
        Outcome::Next(x) if x == station.predicted => (Stage::Done, station.made),
        Outcome::Next(x) => (Stage::Miss(x), station.made),
        Outcome::Address(a) => (Stage::Addr(a), station.made),
        Outcome::Stop(c) => (Stage::Stops(c), station.made),
    };
    Station {
        stage,
        made,
        ..*station
    }
}

impl<'a> Pipeline<'a> {
    /// Claims and finishes a tenant that can be claimed.
    #[inline(always)]
    pub(crate) fn claim(&mut self, ready: Ready)
        requires { CanClaim self.old ready }
        ensures window { RunsAt self.old ready self.new }
        ensures rest { self.new ≡ record self.old { window = self.new.window } }
    {
        let Some(station) = self.window.at(ready.at) else {
            return;
        };
        let Operands { a, b } = ready.operands;
        let instr = station.instr.as_instr();
        let size = self.program.size();
        let outcome = outcome_of(instr, station.half, station.pc, a, b, size);
        self.window.put(ready.at, finished(&station, outcome));
    }
}
