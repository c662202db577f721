//! The memory port: loads are answered over the live memory instructions before them.
ghost use Rattle.std.specs.Prelude.{⊤, ◌≡◌, ◌<◌, ◌≤◌, ◌+◌, length};
ghost use Rattle.instructions.specs.Instruction.{width as width_in};
ghost use Rattle.one_thread.specs.Changes.{LoadGives, LoadsAt};
ghost use Rattle.one_thread.specs.Producers.{gives};
ghost use Rattle.one_thread.specs.Loads.{AreInside, load_in, value_by as value_of, waits as waits_of};
ghost use Rattle.one_thread.specs.Stages.{FirstAnswered};

use crate::forwarding::answer_at;
use crate::pipeline::Pipeline;
use crate::station::{Stage, Station};
use crate::window::Window;
use crate::with_pending_low::WithPendingLow;
use inorder::Committed;
use instructions::{Kind, Op, loaded};
use lsq::Answer;

/// The place of a load that is not blocked, and its value.
#[derive(Clone, Copy)]
pub struct Answered {
    pub at: usize,
    pub value: u32,
}

// The address of a load that waits for its value.
fn waits(station: &Station) -> Option<u32>
    ensures { result ≡ waits_of station.now }
{
    match (station.instr.kind(), station.stage) {
        (Kind::Loads, Stage::Addr(a)) => Some(a),
        _ => None,
    }
}

/// The value of a load of an address, by the rule's answer, if that does not block it.
#[inline(always)]
pub fn value_by(answer: Answer, committed: &Committed, op: Op, address: u32) -> Option<u32>
    requires { address + width_in op ≤ length committed.now.memory }
    ensures { result ≡ value_of answer committed.now.memory op address }
{
    match answer {
        Answer::Forward(raw) => Some(loaded(op, raw)),
        Answer::Memory => {
            let raw = committed.number_at(address as usize, op.width() as usize);
            Some(loaded(op, raw))
        }
        Answer::Blocked(_) => None,
    }
}

// The value of the load at `i`, if it is one with its address that is not blocked.
#[inline(always)]
pub fn value_at(window: &Window, ahead: &WithPendingLow, i: usize) -> Option<u32>
    requires there { i < length window.now }
    requires inside { AreInside (length ahead.now.memory) window.now }
    ensures { result ≡ gives (load_in ahead.now.registers ahead.now.memory) window.now i }
{
    let station = window.peek(i)?;
    let address = waits(station)?;
    let op = station.instr.op();
    let answer = answer_at(window, ahead, i, op, address);
    value_by(answer, ahead.committed, op, address)
}

/// The oldest load with its address that is not blocked.
#[inline(always)]
pub fn oldest_answered(window: &Window, ahead: &WithPendingLow) -> Option<Answered>
    requires { AreInside (length ahead.now.memory) window.now }
    ensures { FirstAnswered ahead.now.registers ahead.now.memory window.now result }
{
    for at in window.resolved()..window.len() {
        if let Some(value) = value_at(window, ahead, at) {
            return Some(Answered { at, value });
        }
    }
    None
}

impl<'a> Pipeline<'a> {
    /// A load that is not blocked gets its value.
    #[inline(always)]
    pub(crate) fn answers(&mut self, answered: Answered)
        requires { LoadGives self.old answered }
        ensures window { LoadsAt self.old answered self.new }
        ensures rest { self.new ≡ record self.old { window = self.new.window } }
    {
        let Some(station) = self.window.at(answered.at) else {
            return;
        };
        let loaded = Station {
            stage: Stage::Done,
            made: Some(answered.value),
            ..station
        };
        self.window.put(answered.at, loaded);
    }
}
