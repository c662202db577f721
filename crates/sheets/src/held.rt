//! Tables of reservation stations, as books draw them.
use crate::misread::{Flaw, Trouble};
use crate::table::separator;
use csv::{ByteRecord, ErrorKind, ReaderBuilder};
use instructions::Op;
use isa::forms;
use lexical::{cut, decimal_in, number_in, trim};
use std::alloc::Global;

const MOST_STATIONS: usize = 1000;

/// Whom a source waits for, as a cell has it.
#[derive(Clone, Copy)]
pub enum Awaited {
    Nobody,
    /// The station with this number of others above it.
    Station(usize),
    /// The instruction with this number of rows before it in the schedule.
    Row(usize),
    /// A name that no station has.
    Unknown,
}

/// A station, as its row has it.
#[derive(Clone, Copy)]
pub struct Held {
    pub is_busy: bool,
    /// The number of rows before its instruction in the schedule, where the row says it.
    pub row: Option<usize>,
    pub op: Option<Op>,
    /// The value of each source, and whom it waits for.
    pub values: [Option<u32>; 2],
    pub awaited: [Awaited; 2],
    pub address: Option<u32>,
}

// What a column has.
#[derive(Clone, Copy, PartialEq)]
enum Part {
    Name,
    Row,
    Busy,
    Op,
    FirstValue,
    SecondValue,
    FirstFrom,
    SecondFrom,
    Address,
}

static PARTS: [(&str, Part); 13] = [
    ("Station", Part::Name),
    ("Name", Part::Name),
    ("Row", Part::Row),
    ("Dest", Part::Row),
    ("Busy", Part::Busy),
    ("Op", Part::Op),
    ("Operation", Part::Op),
    ("Vj", Part::FirstValue),
    ("Vk", Part::SecondValue),
    ("Qj", Part::FirstFrom),
    ("Qk", Part::SecondFrom),
    ("A", Part::Address),
    ("Address", Part::Address),
];

fn part_in(cell: &[u8]) -> Option<Part> {
    for (name, part) in PARTS.iter() {
        if name.as_bytes().eq_ignore_ascii_case(cell) {
            return Some(*part);
        }
    }
    None
}

// The parts of a header, from the left on.
fn parts_of(alloc: Global, header: &ByteRecord) -> Result<Vec<Part>, Trouble> {
    let mut parts = Vec::new(alloc);
    for (at, cell) in header.iter().enumerate() {
        let number = at.saturating_add(1);
        match part_in(trim(cell)) {
            Some(part) if parts.iter().any(|other| *other == part) => {
                return Err(Trouble::at(1, number, Flaw::Doubled));
            }
            Some(part) => parts.push(part)?,
            None => return Err(Trouble::at(1, number, Flaw::NoColumn)),
        }
    }
    Ok(parts)
}

fn is_blank(cell: &[u8]) -> bool {
    cell.is_empty() || matches!(cell, b"-")
}

fn is_one_of(cell: &[u8], words: &[&str]) -> bool {
    words
        .iter()
        .any(|word| word.as_bytes().eq_ignore_ascii_case(cell))
}

fn busy_in(cell: &[u8]) -> Result<bool, Flaw> {
    if is_blank(cell) || is_one_of(cell, &["no", "n", "0", "false"]) {
        Ok(false)
    } else if is_one_of(cell, &["yes", "y", "1", "true", "x"]) {
        Ok(true)
    } else {
        Err(Flaw::NoBusy)
    }
}

fn value_in(cell: &[u8]) -> Result<Option<u32>, Flaw> {
    if is_blank(cell) {
        return Ok(None);
    }
    match number_in(cell, 0x8000_0000, 0xffff_ffff) {
        Some(value) => Ok(Some(value)),
        None => Err(Flaw::NoNumber),
    }
}

// The number of rows before one that is counted from 1 on, as `3` or `#3`.
fn row_in(cell: &[u8]) -> Option<usize> {
    let (front, number) = cut(cell, b'#');
    let number = match number {
        Some(number) if front.is_empty() => number,
        _ => cell,
    };
    match decimal_in(number, 999_999_999) {
        Some(row) if row > 0 => Some((row - 1) as usize),
        _ => None,
    }
}

fn op_in(cell: &[u8]) -> Option<Op> {
    for form in forms() {
        if form.has_word(cell) {
            return Some(form.op);
        }
    }
    None
}

// The records of a table of stations.
#[derive(Drop)]
struct Records {
    parts: Vec<Part>,
    records: Vec<ByteRecord>,
}

impl Records {
    // The number of stations above the one with a name.
    fn station(&self, name: &[u8]) -> Option<usize> {
        let place = self.parts.iter().position(|part| *part == Part::Name)?;
        self.records.iter().position(|record| trim(
            record.get(place).unwrap_or(&[]),
        ).eq_ignore_ascii_case(name))
    }

    fn awaited_in(&self, cell: &[u8]) -> Awaited {
        if is_blank(cell) || matches!(cell, b"0") {
            return Awaited::Nobody;
        }
        match (self.station(cell), row_in(cell)) {
            (Some(station), _) => Awaited::Station(station),
            (None, Some(row)) => Awaited::Row(row),
            (None, None) => Awaited::Unknown,
        }
    }

    // A station with one cell more.
    fn added(&self, held: Held, part: Part, cell: &[u8]) -> Result<Held, Flaw> {
        let [first, second] = held.values;
        let [first_from, second_from] = held.awaited;
        Ok(match part {
            Part::Name => held,
            Part::Row => Held {
                row: row_in(cell),
                ..held
            },
            Part::Busy => Held {
                is_busy: busy_in(cell)?,
                ..held
            },
            Part::Op => Held {
                op: op_in(cell),
                ..held
            },
            Part::FirstValue => Held {
                values: [value_in(cell)?, second],
                ..held
            },
            Part::SecondValue => Held {
                values: [first, value_in(cell)?],
                ..held
            },
            Part::FirstFrom => Held {
                awaited: [self.awaited_in(cell), second_from],
                ..held
            },
            Part::SecondFrom => Held {
                awaited: [first_from, self.awaited_in(cell)],
                ..held
            },
            Part::Address => Held {
                address: value_in(cell)?,
                ..held
            },
        })
    }

    fn held(&self, record: &ByteRecord) -> Result<Held, Trouble> {
        let mut held = FREE;
        let line = match record.position() {
            Some(position) => position.line(),
            None => 0,
        };
        for (at, cell) in record.iter().enumerate() {
            let cell = trim(cell);
            let number = at.saturating_add(1);
            held = match self.parts.as_slice().get(at) {
                Some(part) => match self.added(held, *part, cell) {
                    Ok(held) => held,
                    Err(why) => return Err(Trouble::at(line, number, why)),
                },
                None if cell.is_empty() => held,
                None => return Err(Trouble::at(line, number, Flaw::MoreCells)),
            };
        }
        Ok(held)
    }
}

const FREE: Held = Held {
    is_busy: false,
    row: None,
    op: None,
    values: [None; 2],
    awaited: [Awaited::Nobody; 2],
    address: None,
};

fn records_in(alloc: Global, bytes: &[u8]) -> Result<Vec<ByteRecord>, Trouble> {
    let (header, _) = cut(bytes, b'\n');
    let mut builder = ReaderBuilder::new();
    builder
        .has_headers(false)
        .flexible(true)
        .delimiter(separator(header));
    let mut reader = builder.from_reader(alloc, bytes);
    let mut records = Vec::new(alloc);
    for _ in 0..MOST_STATIONS {
        let mut record = ByteRecord::new(alloc);
        match reader.read_byte_record(&mut record) {
            Ok(true) => records.push(record)?,
            Ok(false) => return Ok(records),
            Err(error) => {
                return Err(match error.kind() {
                    ErrorKind::OutOfMemory => Trouble::Memory,
                    _ => Trouble::at(0, 0, Flaw::MoreCells),
                });
            }
        }
    }
    Err(Trouble::at(0, 0, Flaw::MoreStations))
}

/// Reads a table of stations.
pub fn held_in(alloc: Global, bytes: &[u8]) -> Result<Vec<Held>, Trouble> {
    let mut records = records_in(alloc, bytes)?;
    if records.is_empty() {
        return Err(Trouble::at(1, 0, Flaw::NoColumn));
    }
    let header = records.remove(0);
    let parts = parts_of(alloc, &header)?;
    let records = Records { parts, records };
    let mut all = Vec::new(alloc);
    for record in records.records.iter() {
        all.push(records.held(record)?)?;
    }
    Ok(all)
}
