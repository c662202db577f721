//! The create vector: who creates the newest value of a register. It is found and changed by counted readings
//! and writings alone.
ghost use Rattle.std.specs.Prelude.{◌≡◌, ◌<◌, Some, None};
ghost use Rattle.front.specs.CreateTable.{EntryFinds, IsEntered, IsRestored, IsTouched, made_from_start};

use super::counted::{CountedTable, Maker, Saved, Table};
use super::record::Record;
use instructions::{Reg, pc_plus_4};

/// The creator of a register whose station was not let again.
#[derive(Clone, Copy)]
pub struct Creator {
    pub station: usize,
    pub tag: u32,
    pub made: Option<u32>,
}

// The value that a tenant has from the start: the return address of a jump that links.
fn made_at_let(tenant: &Record) -> Option<u32>
    ensures { result ≡ made_from_start tenant.now }
{
    if tenant.links {
        Some(pc_plus_4(tenant.pc))
    } else {
        None
    }
}

impl Table {
    // The newest writer of a register, if its station was not let again. Nobody writes register 0. Each entry and
    // record that is read is counted.
    pub(super) fn find(&self, r: Reg, touched: &mut u64) -> Option<Creator>
        ensures found { EntryFinds self.now r result }
        ensures touched { IsTouched 2 touched.old touched.new }
    {
        if r.number() == 0 {
            return None;
        }
        let maker = self.entry(r.number() as usize, touched)??;
        let saved = self.record(maker.station, touched)?;
        if saved.tag != maker.tag {
            return None;
        }
        Some(Creator {
            station: maker.station,
            tag: maker.tag,
            made: saved.made,
        })
    }
}

impl CountedTable {
    // Enters a new tenant as the last one of its station and the newest writer of its register.
    pub(super) fn enter(&mut self, newest: &Record)
        requires { newest.now.station < 32 }
        ensures table { IsEntered self.old.table self.new.table newest.now }
        ensures touched { IsTouched 3 self.old.touched self.new.touched }
    {
        let replaced = self.entry(newest.destination as usize).flatten();
        let saved = Saved {
            tag: newest.tag,
            register: newest.destination,
            made: made_at_let(newest),
            replaced,
        };
        self.put_record(newest.station, saved);
        if 0 < newest.destination && newest.destination < 34 {
            let maker = Maker {
                station: newest.station,
                tag: newest.tag,
            };
            self.put_entry(newest.destination as usize, Some(maker));
        }
    }

    /// Undoes the entry of a squashed tenant: the youngest of the path, and the last one of its station.
    pub fn restore(&mut self, station: usize)
        ensures table { IsRestored self.old.table self.new.table station }
        ensures touched { IsTouched 2 self.old.touched self.new.touched }
    {
        let Some(saved) = self.record(station) else {
            return;
        };
        if 0 < saved.register && saved.register < 34 {
            self.put_entry(saved.register as usize, saved.replaced);
        }
    }
}
