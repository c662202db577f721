//! What the front keeps of its tenants.
ghost use Rattle.std.specs.Prelude.{◌≡◌, ◌<◌, ◌≤◌, ◌-◌, [], ◌∷◌, ◌++◌, length, take, slice_get, IfSome, IfNone};
ghost use Rattle.front.specs.Path.{YoungestGoesOn, record_for};
ghost use Rattle.front.specs.Recoveries.{may_miss};
ghost use Rattle.front.specs.Training.{leaver_if};

use crate::fetch::Fetched;
use arrayvec::ArrayVec;
use instructions::{Kind, Leaver};
use std::marker::Model;

/// A tenant of the path whose station was not let again.
#[derive(Clone, Copy, Default)]
pub struct Record {
    pub station: usize,
    pub(super) tag: u32,
    pub(super) pc: u32,
    // the predicted next pc, or the computed one once it was mended
    pub(super) next: u32,
    // the register that it writes; 0 where it writes none
    pub(super) destination: u8,
    // the tenant makes its return address
    pub(super) links: bool,
    // the tenant is the first of two halves
    pub(super) first: bool,
    // the tenant reaches memory
    pub access: bool,
    // a predictor was asked for its next pc
    pub(super) guessed: bool,
}

// The record of a new tenant.
pub(super) fn new_record(next: &Fetched, tag: u32, predicted: u32) -> Record
    ensures { result ≡ record_for next.now tag predicted }
{
    let kind = next.instr.op().kind();
    Record {
        station: next.station,
        tag,
        pc: next.pc,
        next: predicted,
        destination: next.instr.destination(next.half).number(),
        links: matches!(kind, Kind::Links),
        first: next.instr.is_first_half(next.half),
        access: next.instr.op().is_access(),
        guessed: next.instr.fixed_next(next.half, next.pc).is_none(),
    }
}

impl Record {
    /// Only a jump can be a miss: it reaches no memory, and writes a register only as a link.
    pub fn may_miss(&self) -> bool
        ensures { result ≡ may_miss self.now }
    {
        !self.access && (self.links || self.destination == 0)
    }

    /// The leaver that a predictor is told of when the tenant leaves, if it was asked about the tenant.
    pub fn leaver(&self) -> Option<Leaver>
        ensures { result ≡ leaver_if self.now.guessed self.now.pc self.now.next }
    {
        if self.guessed {
            Some(Leaver {
                pc: self.pc,
                next: self.next,
            })
        } else {
            None
        }
    }
}

/// The tenants of the path whose stations were not let again, the oldest first.
#[derive(Drop)]
pub struct Records {
    records: ArrayVec<Record, 32>,
}

impl Model for Records {
    ghost use Rattle.std.specs.Prelude.{◌≤◌, List, length};
    ghost use Rattle.front.specs.declared.path.record.Record.{Record};

    ghost Value = { List Record };

    ghost view = { λ r. r.records.items };

    ghost invariant = { λ r. length r.records.items ≤ 32 };
}

impl Records {
    pub fn new() -> Records
        ensures { result ≡ [] }
    {
        Records {
            records: ArrayVec::new(),
        }
    }

    pub fn len(&self) -> usize
        ensures value { result ≡ length self.now }
        ensures most { result ≤ 32 }
    {
        self.records.len()
    }

    pub fn at(&self, i: usize) -> Option<Record>
        ensures { result ≡ slice_get self.now i }
    {
        self.records.as_slice().get(i).copied()
    }

    /// The youngest record.
    pub fn last(&self) -> Option<Record>
        ensures { result ≡ slice_get self.now (length self.now - 1) }
    {
        self.at(self.len().saturating_sub(1))
    }

    pub(super) fn push(&mut self, newest: Record)
        requires { length self.old < 32 }
        ensures { self.new ≡ self.old ++ newest ∷ [] }
    {
        self.records.push(newest);
    }

    /// Takes the youngest record out.
    pub fn pop(&mut self) -> Option<Record>
        ensures some { IfSome result (λ r. self.old ≡ self.new ++ r ∷ []) }
        ensures none { IfNone result (self.old ≡ []) }
        ensures kept { self.new ≡ take (length self.old - 1) self.old }
    {
        self.records.pop()
    }

    /// Takes the oldest record out.
    pub(super) fn shift(&mut self) -> Option<Record>
        ensures some { IfSome result (λ r. self.old ≡ r ∷ self.new) }
        ensures none { IfNone result (self.old ≡ []) }
        ensures empty { IfNone result (self.new ≡ []) }
    {
        self.records.pop_at(0)
    }

    /// Corrects the next pc of the youngest record.
    pub fn redirect(&mut self, next: u32)
        ensures { YoungestGoesOn next self.old self.new }
    {
        if let Some(youngest) = self.records.pop() {
            self.records.push(Record { next, ..youngest });
        }
    }
}
