//! The loads and stores in flight: their addresses, their data, and what blocks a load.
use crate::answer_words::{SomeStation, state};
use crate::names::UnitName;
use crate::replies::{Operand, Row};
use crate::shown::{After, Shown, indexed};
use inorder::{access_entry, access_width, is_store};
use instructions::{Instr, Kind, Program};
use isa::Hexadecimal;
use lsq::{Answer, Entry, Width, answer_over, overlaps};
use station::{SourceState, StationState};
use std::alloc::{AllocError, Global};
use std::fmt;

// What is not there yet, and who makes it.
fn missing<W: fmt::Write>(operand: &Operand, f: &mut fmt::Formatter<W>) -> fmt::Result {
    write!(f, "WAIT{}", After(" for ", operand.from))
}

// The place of the youngest store to a byte of a load.
fn met_at(entries: &[Entry], address: u32, width: Width) -> Option<usize> {
    let mut met = None;
    for place in 0..entries.len() {
        if overlaps(&entries[place], address, width) {
            met = Some(place);
        }
    }
    met
}

// A load or store of a station, after those of others.
#[derive(Clone, Copy)]
struct Access<'a> {
    station: usize,
    instr: Instr,
    row: &'a Row,
    stations: &'a [usize],
    entries: &'a [Entry],
}

impl Access<'_> {
    // The address, or the producer of the base, or the step that computes the address.
    fn address<W: fmt::Write>(&self, f: &mut fmt::Formatter<W>) -> fmt::Result {
        let (seen, base) = (self.row.seen, &self.row.first);
        match (seen.state, base.seen.state, self.row.unit) {
            (StationState::Addr, _, _) => write!(f, "{}", Hexadecimal(seen.value)),
            (StationState::Open | StationState::Busy, SourceState::Val, Some(unit)) => {
                write!(f, "WAIT for unit {}", UnitName(unit))
            }
            (StationState::Open | StationState::Busy, SourceState::Val, None) => {
                f.write_str("WAIT for a claim")
            }
            (StationState::Open | StationState::Busy, _, _) => missing(base, f),
            _ => {
                let address = base.seen.value.wrapping_add(self.instr.number());
                write!(f, "{}", Hexadecimal(address))
            }
        }
    }

    // Where the value of a load with its address comes from, by the rule for loads, or what blocks it.
    fn origin<W: fmt::Write>(&self, f: &mut fmt::Formatter<W>) -> fmt::Result {
        let (address, width) = (self.row.seen.value, access_width(self.instr.op()));
        let (word, place) = match answer_over(self.entries, address, width) {
            Answer::Memory => return f.write_str("from memory"),
            Answer::Blocked(place) => ("blocked by", Some(place)),
            Answer::Forward(_) => ("from", met_at(self.entries, address, width)),
        };
        let station = match place {
            Some(place) => self.stations.get(place).copied(),
            None => None,
        };
        write!(f, "{word} station {}", SomeStation(station))
    }

    fn data<W: fmt::Write>(&self, f: &mut fmt::Formatter<W>) -> fmt::Result {
        let row = self.row;
        if is_store(self.instr.op()) {
            return match row.second.seen.state {
                SourceState::Val => write!(f, "{}", Hexadecimal(row.second.seen.value)),
                _ => missing(&row.second, f),
            };
        }
        match row.seen.state {
            StationState::Done => write!(f, "{}", Hexadecimal(row.seen.value)),
            StationState::Addr => self.origin(f),
            StationState::Stop => f.write_str("STOP"),
            _ => f.write_str("WAIT"),
        }
    }
}

impl fmt::Display for Access<'_> {
    fn fmt<W: fmt::Write>(&self, f: &mut fmt::Formatter<W>) -> fmt::Result {
        let (station, tag, state) = (self.station, self.row.seen.tag, state(self.row.seen.state));
        let instr = Shown(Some(self.instr));
        write!(
            f,
            "station {station}: tag {tag} state {state}{instr}; address "
        )?;
        self.address(f)?;
        f.write_str("; data ")?;
        self.data(f)?;
        f.write_str("\n")
    }
}

/// The loads and stores so far, the oldest first.
#[derive(Drop)]
pub(crate) struct Accesses {
    stations: Vec<usize>,
    entries: Vec<Entry>,
    // what is told of them
    pub(crate) text: String,
}

// The load or store in flight at a station, if one is.
fn access_at(program: &Program, row: &Row) -> Option<Instr> {
    if let StationState::Free = row.seen.state {
        return None;
    }
    let instr = indexed(program, row.first.info.index)?;
    match instr.op().kind() {
        Kind::Loads | Kind::Stores => Some(instr),
        _ => None,
    }
}

// What the rule for loads looks at.
fn entry_of(instr: &Instr, row: &Row) -> Entry {
    let address = match row.seen.state {
        StationState::Addr => Some(row.seen.value),
        _ => None,
    };
    let data = match row.second.seen.state {
        SourceState::Val => Some(row.second.seen.value),
        _ => None,
    };
    access_entry(instr.op(), address, data)
}

impl Accesses {
    pub(crate) fn new(alloc: Global) -> Accesses {
        Accesses {
            stations: Vec::new(alloc),
            entries: Vec::new(alloc),
            text: String::new(alloc),
        }
    }

    /// Adds the load or store of a station, if one is there.
    pub(crate) fn push(
        &mut self,
        program: &Program,
        station: usize,
        row: &Row,
    ) -> Result<(), AllocError> {
        let Some(instr) = access_at(program, row) else {
            return Ok(());
        };
        let access = Access {
            station,
            instr,
            row,
            stations: self.stations.as_slice(),
            entries: self.entries.as_slice(),
        };
        write!(&mut self.text, "{access}")?;
        self.stations.push(station)?;
        self.entries.push(entry_of(&instr, row))?;
        Ok(())
    }
}
