//! A unit's job, from its claim to its finish.
ghost use Rattle.station.specs.Claiming.{Holds};

use crate::seat::UnitSeat;
use instructions::{Half, Outcome, Program, outcome_of};
use std::marker::Model;

/// A claimed tenant, with what its unit needs. `Core::finish` spends it, and the seat of its unit may be given up
/// together with it (`abandon`). A job is not `Drop`, and no other crate takes it apart: so a unit that goes on working
/// finishes what it has claimed.
pub struct Job {
    pub(crate) station: usize,
    pub(crate) tag: u32,
    pub(crate) index: u32,
    pub(crate) half: Half,
    pub(crate) pc: u32,
    pub(crate) predicted: u32,
    pub(crate) a: u32,
    pub(crate) b: u32,
}

impl Model for Job {
    ghost use Rattle.inorder.specs.Replies.{JobFields};

    ghost Value = { JobFields };

    ghost view = { λ j. record {
      station = j.station;
      tag = j.tag;
      index = j.index;
      half = j.half;
      pc = j.pc;
      predicted = j.predicted;
      first = j.a;
      second = j.b;
    } };
}

impl Job {
    ghost use Rattle.std.specs.Prelude.{◌≡◌, ◌<◌, length};
    ghost use Rattle.station.specs.Writeback.{job_outcome};

    /// The tenant's station.
    pub fn station(&self) -> usize
        ensures { result ≡ self.now.station }
    {
        self.station
    }

    /// The tenant's tag.
    pub fn tag(&self) -> u32
        ensures { result ≡ self.now.tag }
    {
        self.tag
    }

    /// Which instruction of the program it is, from 0 on.
    pub fn index(&self) -> u32
        ensures { result ≡ self.now.index }
    {
        self.index
    }

    /// Which half of the instruction.
    pub fn half(&self) -> Half
        ensures { result ≡ self.now.half }
    {
        self.half
    }

    /// The address of the instruction.
    pub fn pc(&self) -> u32
        ensures { result ≡ self.now.pc }
    {
        self.pc
    }

    /// The predicted next pc.
    pub fn predicted(&self) -> u32
        ensures { result ≡ self.now.predicted }
    {
        self.predicted
    }

    /// The value of source 1, which each claim needs; 0 where the instruction has no such source.
    pub fn a(&self) -> u32
        ensures { result ≡ self.now.first }
    {
        self.a
    }

    /// The value of source 2; 0 for a store, whose data is read when it retires, and where the instruction has no such
    /// source.
    pub fn b(&self) -> u32
        ensures { result ≡ self.now.second }
    {
        self.b
    }

    /// The outcome with which its unit finishes it: that of its half of the instruction.
    pub fn outcome(&self, program: &Program) -> Outcome
        requires { self.now.index < length program.now.code }
        ensures { result ≡ job_outcome program.now self.now }
    {
        let instr = program.instr(self.index as usize);
        outcome_of(instr, self.half, self.pc, self.a, self.b, program.size())
    }
}

/// Gives up a unit's seat together with the job that it holds, as where its core is renewed.
pub fn abandon(seat: UnitSeat, job: Job)
    requires { Holds seat.core.program seat.core.sizes seat.by seat.seen job }
{
    let _seat = seat;
    let Job {
        station: _,
        tag: _,
        index: _,
        half: _,
        pc: _,
        predicted: _,
        a: _,
        b: _,
    } = job;
}
