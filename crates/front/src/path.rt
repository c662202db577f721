//! What the front knows of the path. Who writes a register is read from records and entries in this module
//! alone, and all that a turn or a recovery reads or writes of them for that is counted.
ghost use Rattle.std.specs.Prelude.{◌≡◌, ◌<◌, ◌≤◌, ◌++◌, ◌∷◌, [], length, IfNone, IfSome};
ghost use Rattle.std.specs.List.{AllByRecursion};
ghost use Rattle.front.specs.CreateTable.{IsEntered, IsTouched};
ghost use Rattle.front.specs.Path.{GoesOnWith, Released, Releases, made_of as made_of_record, next_half, station_of_next, pc_behind, record_for};

mod base_state;
mod counted;
mod creators;
mod record;

use crate::fetch::Fetched;
pub use base_state::Base;
pub use counted::{CountedTable, Creators};
use inorder::wrapped;
use instructions::{Half, pc_plus_4};
use record::new_record;
pub use record::{Record, Records};
use station::FrontSeat;

/// The records of all tenants whose stations were not let again since the front last rested, and in `base` what
/// older tenants have left.
#[derive(Drop)]
pub struct Path {
    pub records: Records,
    pub base: Base,
}

// The result of a retired tenant, by the value in its station's word. A jump that links made its return address.
fn made_of(tenant: &Record, left: u32) -> u32
    ensures { result ≡ made_of_record tenant.now left }
{
    if tenant.links {
        pc_plus_4(tenant.pc)
    } else {
        left
    }
}

impl Path {
    /// An empty path.
    pub fn new(base: Base) -> Path
        ensures records { result.records ≡ [] }
        ensures base { result.base ≡ base }
    {
        Path {
            records: Records::new(),
            base,
        }
    }

    /// Where the path goes on.
    pub fn front_pc(&self) -> u32
        ensures { result ≡ pc_behind self.now.base self.now.records }
    {
        match self.records.last() {
            None => self.base.pc,
            Some(record) => record.next,
        }
    }

    /// The half that comes next.
    pub fn front_half(&self) -> Half
        ensures { result ≡ next_half self.now.base self.now.records }
    {
        match self.records.last() {
            None => self.base.half,
            Some(record) if record.first => Half::High,
            Some(_) => Half::Low,
        }
    }

    /// The station of the next tenant.
    pub fn next_station(&self, ring: usize) -> usize
        requires least { 2 ≤ ring }
        requires most { ring ≤ 32 }
        requires inside { AllByRecursion (λ x. x.station < ring) self.now.records }
        ensures value { result ≡ station_of_next ring self.now.base self.now.records }
        ensures small { result < ring }
    {
        match self.records.last() {
            None => self.base.station % ring,
            Some(record) => wrapped(record.station + 1, ring),
        }
    }

    /// If each station has a record, drops the oldest, whose station the next tenant gets, and moves the value that
    /// its tenant left into the base registers.
    pub fn release(&mut self, creators: &mut CountedTable, ring: usize, left: u32) -> Option<Record>
        requires { 0 < ring }
        ensures reply { Releases ring left self.old result self.new }
        ensures table { creators.new.table ≡ creators.old.table }
        ensures touched { IsTouched 1 creators.old.touched creators.new.touched }
    {
        if self.records.len() < ring {
            return None;
        }
        creators.touch();
        self.fold(left)
    }

    /// Drops the oldest record, and writes the value that its tenant left into the base registers.
    pub fn fold(&mut self, left: u32) -> Option<Record>
        ensures some { IfSome result (λ x. Released left self.old x self.new) }
        ensures none { IfNone result (self.old.records ≡ []) }
        ensures none_changed { IfNone result (self.new ≡ self.old) }
    {
        let record = self.records.shift()?;
        let r = record.destination as usize;
        if 0 < r && r < 34 {
            self.base.registers[r] = made_of(&record, left);
        }
        Some(record)
    }

    /// Saves the next pc, half and station of the path in its base, so that they do not depend on its records.
    pub fn keep_front(&mut self, ring: usize)
        requires least { 2 ≤ ring }
        requires most { ring ≤ 32 }
        requires inside { AllByRecursion (λ x. x.station < ring) self.old.records }
        ensures records { self.new.records ≡ self.old.records }
        ensures base { GoesOnWith ring self.old self.new.base }
    {
        let pc = self.front_pc();
        let half = self.front_half();
        let station = self.next_station(ring);
        self.base.pc = pc;
        self.base.half = half;
        self.base.station = station;
    }

    /// Adds the record of a new tenant, the youngest, and enters the tenant as the newest writer of its register.
    pub fn enter(&mut self, creators: &mut CountedTable, next: &Fetched, tag: u32, predicted: u32)
        requires room { length self.old.records < 32 }
        requires station { next.now.station < 32 }
        ensures records { self.new.records ≡ self.old.records ++ record_for
            next.now tag predicted ∷ [] }
        ensures base { self.new.base ≡ self.old.base }
        ensures table { IsEntered creators.old.table creators.new.table
            (record_for next.now tag predicted) }
        ensures touched { IsTouched 4 creators.old.touched creators.new.touched }
    {
        let newest = new_record(next, tag, predicted);
        creators.touch();
        self.records.push(newest);
        creators.enter(&newest);
    }
}
