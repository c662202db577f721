//! The flow: live tenants that have all completed, and what the next instruction finds.
ghost use Rattle.std.specs.Prelude.{◌≡◌, ◌<◌, ◌≤◌, ◌+◌, ◌-◌, ◌∷◌, ◌++◌, [], drop, length, IfSome};
ghost use Rattle.instructions.specs.declared.op.Half.TheVariants.{Low};
ghost use Rattle.inorder.specs.Machine.{write};
ghost use Rattle.inorder.specs.Unit.{half_after};
ghost use Rattle.instructions.specs.Instruction.{is_first_half};
ghost use Rattle.streaming.specs.Flow.{HasJoined, completed_as};
ghost use Rattle.streaming.specs.CompletedRing.{station_by, store_with};
ghost use Rattle.streaming.specs.Futures.{GoesOnBehind};
ghost use Rattle.streaming.specs.Known.{KnownAs};
ghost use Rattle.streaming.specs.Kept.{kept_with};
ghost use Rattle.one_thread.specs.Leavers.{LeavesAs};
ghost use Rattle.one_thread.specs.Loads.{with_entry};
ghost use Rattle.streaming.specs.Slots.{slot_in};
ghost use Rattle.one_thread.specs.Window.{access_of};

use crate::completed_ring::{Completed, CompletedRing};
use crate::completing::Done;
use crate::future::Future;
use crate::known::{destination_by, kind_by};
use inorder::access_width;
use instructions::{Half, Kind};
use lsq::Entry;
use one_thread::{Decoded, Leaves, Station};

/// Completed instructions, and what the next one finds.
#[derive(Drop)]
pub struct Flow {
    pub ring: CompletedRing,
    pub future: Future,
    pub half: Half,
    /// How many of its instructions reach memory.
    pub accesses: usize,
    /// The station of the last instruction that was let, if it is left as it was let.
    pub last: Option<Station>,
    /// The committed value of LO, while what a first half has made waits for LO.
    pub held: u32,
}

impl Flow {
    /// What an instruction keeps: a store its content, any other what its register holds.
    #[inline(always)]
    pub fn kept(&self, instr: &Decoded, known: Option<Kind>, half: Half, content: u32) -> u32
        requires kind { KnownAs known instr.now }
        requires all { length self.now.future.values ≡ 34 }
        ensures { result ≡ kept_with instr.now half content self.now.future.values }
    {
        match kind_by(instr, known) {
            Kind::Stores => content,
            _ => self.future.values[destination_by(instr, known, half).number() as usize],
        }
    }

    /// The next instruction as one that has completed. What it does may be known.
    #[inline(always)]
    pub fn completed(
        &self,
        instr: &Decoded,
        known: Option<Kind>,
        half: Half,
        predicted: u32,
        done: Done,
        content: u32,
    ) -> Completed
        requires kind { KnownAs known instr.now }
        requires half { half ≡ self.now.half }
        requires all { length self.now.future.values ≡ 34 }
        ensures is { result ≡ completed_as self.now predicted done result.leaves
            (kept_with instr.now half content self.now.future.values) }
        ensures leaves { LeavesAs result.leaves instr.now }
    {
        let kept = self.kept(instr, known, half, content);
        Completed {
            pc: self.future.pc,
            half,
            leaves: match known {
                Some(Kind::Computes) => Leaves::Nothing,
                Some(Kind::Loads) => Leaves::Load,
                Some(Kind::Stores) => Leaves::Any,
                _ => instr.leaves(),
            },
            predicted,
            next: done.next,
            value: done.value,
            kept,
        }
    }

    // The half after this one of an instruction; where it is known what the instruction does, it is no half.
    #[inline(always)]
    fn half_behind(&self, instr: &Decoded, known: Option<Kind>, half: Half) -> Half
        requires kind { KnownAs known instr.now }
        requires first { IfSome known (λ k. self.now.half ≡ Low) }
        ensures { result ≡ half_after (is_first_half instr.now.op half) }
    {
        match known {
            Some(_) => self.half,
            None => instr.half_behind(half),
        }
    }

    /// A completed instruction joins, with its content, if it is a store. What it does may be known: it is no half then.
    #[inline(always)]
    pub fn joins(
        &mut self,
        station: usize,
        instr: &Decoded,
        known: Option<Kind>,
        completed: Completed,
        content: u32,
    )
        requires kind { KnownAs known instr.now }
        requires first { IfSome known (λ k. self.old.half ≡ Low) }
        requires room { length self.old.ring.completed < self.old.ring.size }
        requires small { station < 32 }
        requires station { station ≡
            slot_in self.old.ring.size self.old.ring.oldest (length self.old.ring.completed) }
        requires few { length self.old.ring.stores < 32 }
        requires all { length self.old.future.values ≡ 34 }
        requires accesses { self.old.accesses ≤ 32 }
        ensures { HasJoined self.old self.new instr.now completed content }
    {
        let destination = destination_by(instr, known, completed.half);
        self.ring.push(station, completed);
        self.future
            .follow(destination, completed.value, completed.next);
        self.half = self.half_behind(instr, known, completed.half);
        match kind_by(instr, known) {
            Kind::Loads => self.accesses += 1,
            Kind::Stores => {
                self.accesses += 1;
                self.ring.push_store(Entry {
                    store: true,
                    width: access_width(instr.op()),
                    address: Some(completed.value),
                    content: Some(content),
                });
            },
            _ => {},
        }
    }

    /// The oldest instruction leaves, without its entry, where it counts for this number of accesses.
    #[inline(always)]
    pub fn leaves(&mut self, accesses: usize)
        requires some { 0 < length self.old.ring.completed }
        requires counted { accesses ≤ self.old.accesses }
        ensures ring { self.new.ring ≡ record self.old.ring {
          completed = drop 1 self.old.ring.completed;
          oldest = slot_in self.old.ring.size self.old.ring.oldest 1;
        } }
        ensures accesses { self.new.accesses ≡ self.old.accesses - accesses }
        ensures rest { self.new ≡ record self.old {
          ring = self.new.ring;
          accesses = self.new.accesses;
        } }
    {
        self.accesses -= accesses;
        self.ring.shift();
    }
}
