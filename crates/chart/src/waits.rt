//! The producers that a new tenant waits for.
ghost use Rattle.std.specs.Prelude.{◌≡◌};
ghost use Rattle.chart.specs.Events.{let_event};
ghost use Rattle.chart.specs.Rows.{awaited as awaited_of, writer_of as writer_in};

use crate::event::Event;
use crate::row::Row;
use instructions::Reg;

/// The youngest tenant that writes a register.
pub(crate) fn writer_of(register: Reg, rows: &[Row]) -> Option<Row>
    ensures { result ≡ writer_in register rows.now }
{
    let mut found = None;
    for row in rows.iter() {
        if row.station.destination.number() == register.number() {
            found = Some(*row);
        }
    }
    found
}

// The position of the producer that has still to make what a new tenant reads from a register.
fn awaited(register: Reg, rows: &[Row]) -> Option<u64>
    ensures { result ≡ awaited_of register rows.now }
{
    if register.number() == 0 {
        return None;
    }
    let row = writer_of(register, rows)?;
    match row.station.made {
        None => Some(row.position),
        Some(_) => None,
    }
}

/// The event of a tenant that was let after the tenants of these rows.
pub(crate) fn entry(rows: &[Row], row: &Row) -> Event
    ensures { result ≡ let_event rows.now row.now }
{
    let first = awaited(row.station.instr.first(), rows);
    let second = awaited(row.station.instr.second(), rows);
    Event::Let {
        row: *row,
        first,
        second,
    }
}
