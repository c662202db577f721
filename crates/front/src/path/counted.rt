//! The create vector's entries and records, each reading and writing counted.
ghost use Rattle.std.specs.Prelude.{◌≡◌, ◌<◌, ◌+◌, ◌%◌, ◌^◌, length, slice_get, slice_set, replicate, None};
ghost use Rattle.front.specs.CreateTable.{EntryFinds, IsTouched};

use super::creators::Creator;
use instructions::Reg;

/// The tenant that an entry names.
#[derive(Clone, Copy)]
pub struct Maker {
    pub station: usize,
    pub tag: u32,
}

/// The part of a station's last tenant that the table keeps.
#[derive(Clone, Copy)]
pub struct Saved {
    pub tag: u32,
    // the register that it writes; 0 where it writes none
    pub register: u8,
    // what it has made from the start
    pub made: Option<u32>,
    // the entry that its let replaced
    pub replaced: Option<Maker>,
}

/// The newest writer of each register, and the part that is kept of each station's last tenant.
#[derive(Drop)]
pub struct Table {
    entries: [Option<Maker>; 34],
    latest: [Saved; 32],
}

/// The create vector, as turns and recoveries get it: each reading and writing is counted, modulo 2^64.
#[derive(Drop)]
pub struct CountedTable {
    table: Table,
    touched: u64,
}

/// The create vector, as the front holds it: it may be asked from outside, uncounted.
#[derive(Drop)]
pub struct Creators {
    pub counted: CountedTable,
}

// Counts one reading or writing.
fn count(touched: &mut u64)
    ensures { touched.new ≡ (touched.old + 1) % 2 ^ 64 }
{
    *touched = touched.wrapping_add(1);
}

impl Table {
    // The entry of a register. The reading is counted.
    pub(super) fn entry(&self, r: usize, touched: &mut u64) -> Option<Option<Maker>>
        ensures value { result ≡ slice_get self.now.entries r }
        ensures touched { touched.new ≡ (touched.old + 1) % 2 ^ 64 }
    {
        count(touched);
        self.entries.get(r).copied()
    }

    // The part of a station's last tenant that the table keeps. The reading is counted.
    pub(super) fn record(&self, station: usize, touched: &mut u64) -> Option<Saved>
        ensures value { result ≡ slice_get self.now.latest station }
        ensures touched { touched.new ≡ (touched.old + 1) % 2 ^ 64 }
    {
        count(touched);
        self.latest.get(station).copied()
    }
}

impl CountedTable {
    // Counts one reading or writing.
    pub(super) fn touch(&mut self)
        ensures table { self.new.table ≡ self.old.table }
        ensures touched { self.new.touched ≡ (self.old.touched + 1) % 2 ^ 64 }
    {
        count(&mut self.touched);
    }

    /// The newest writer of a register, if its station was not let again.
    pub fn find(&mut self, r: Reg) -> Option<Creator>
        ensures found { EntryFinds self.old.table r result }
        ensures table { self.new.table ≡ self.old.table }
        ensures touched { IsTouched 2 self.old.touched self.new.touched }
    {
        self.table.find(r, &mut self.touched)
    }

    // The entry of a register.
    pub(super) fn entry(&mut self, r: usize) -> Option<Option<Maker>>
        ensures value { result ≡ slice_get self.old.table.entries r }
        ensures table { self.new.table ≡ self.old.table }
        ensures touched { self.new.touched ≡ (self.old.touched + 1) % 2 ^ 64 }
    {
        self.table.entry(r, &mut self.touched)
    }

    pub(super) fn put_entry(&mut self, r: usize, maker: Option<Maker>)
        requires { r < 34 }
        ensures entries { self.new.table.entries ≡ slice_set self.old.table.entries r maker }
        ensures latest { self.new.table.latest ≡ self.old.table.latest }
        ensures touched { self.new.touched ≡ (self.old.touched + 1) % 2 ^ 64 }
    {
        self.touch();
        self.table.entries[r] = maker;
    }

    // The part of a station's last tenant that the table keeps.
    pub(super) fn record(&mut self, station: usize) -> Option<Saved>
        ensures value { result ≡ slice_get self.old.table.latest station }
        ensures table { self.new.table ≡ self.old.table }
        ensures touched { self.new.touched ≡ (self.old.touched + 1) % 2 ^ 64 }
    {
        self.table.record(station, &mut self.touched)
    }

    pub(super) fn put_record(&mut self, station: usize, saved: Saved)
        requires { station < 32 }
        ensures latest { self.new.table.latest ≡ slice_set self.old.table.latest station saved }
        ensures entries { self.new.table.entries ≡ self.old.table.entries }
        ensures touched { self.new.touched ≡ (self.old.touched + 1) % 2 ^ 64 }
    {
        self.touch();
        self.table.latest[station] = saved;
    }
}

impl Creators {
    /// Nobody has written a register.
    pub fn new() -> Creators
        ensures entries { result.counted.table.entries ≡ replicate 34 None }
        ensures latest { length result.counted.table.latest ≡ 32 }
        ensures touched { result.counted.touched ≡ 0 }
    {
        let nobody = Saved {
            tag: 0,
            register: 0,
            made: None,
            replaced: None,
        };
        let table = Table {
            entries: [None; 34],
            latest: [nobody; 32],
        };
        Creators {
            counted: CountedTable { table, touched: 0 },
        }
    }

    /// Empties the create vector: no tenant creates a register any more. Turns and recoveries do not call this, so
    /// nothing is counted.
    pub fn forget(&mut self)
        ensures entries { self.new.counted.table.entries ≡ replicate 34 None }
        ensures latest { self.new.counted.table.latest ≡ self.old.counted.table.latest }
        ensures touched { self.new.counted.touched ≡ self.old.counted.touched }
    {
        self.counted.table.entries = [None; 34];
    }

    /// The newest writer of a register, if its station was not let again. Who asks from outside is not counted.
    pub fn peek(&self, r: Reg) -> Option<Creator>
        ensures { EntryFinds self.now.counted.table r result }
    {
        let mut uncounted = 0;
        self.counted.table.find(r, &mut uncounted)
    }

    /// How many entries and records turns and recoveries have read or written.
    pub fn touched(&self) -> u64
        ensures { result ≡ self.now.counted.touched }
    {
        self.counted.touched
    }
}
