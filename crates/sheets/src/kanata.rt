//! Logs of the format Kanata, version 0004.
use crate::labels::{Labelled, label_in};
use crate::lines::{ReadsLines, read_lines};
use crate::misread::{Flaw, Trouble};
use crate::order::{Within, in_order, youngest_first};
use crate::placed::{Moment, Place, Placed};
use crate::stage::Stage;
use crate::step::{Step, StepNames};
use events::Event;
use instructions::Program;
use lexical::{cut, decimal_in, trim};
use std::alloc::{AllocError, Global};
use std::collections::BTreeMap;

/// A first line is that of such a log.
pub fn begins_kanata(line: &[u8]) -> bool {
    let (first, _) = cut(line, b'\t');
    matches!(first, b"Kanata")
}

// An instruction of the log.
#[derive(Clone, Copy)]
struct Entry {
    label: Option<Labelled>,
    /// Its position, once it was let.
    position: Option<usize>,
    /// The log said that it is a misprediction.
    has_missed: bool,
}

impl Entry {
    fn halves(&self) -> usize {
        match self.label {
            Some(label) => label.halves,
            None => 1,
        }
    }

    fn pc(&self) -> Option<u32> {
        Some(self.label?.pc)
    }
}

#[derive(Drop)]
struct Reading<'a> {
    program: &'a Program,
    names: StepNames<'a>,
    line: u64,
    cycle: u64,
    lets: usize,
    entries: BTreeMap<u32, Entry>,
    events: Vec<Placed>,
}

// The fields of a line after its command.
#[derive(Clone, Copy)]
struct Fields<'a> {
    first: &'a [u8],
    second: &'a [u8],
    third: &'a [u8],
}

fn field(text: &[u8]) -> (&[u8], &[u8]) {
    let (field, rest) = cut(text, b'\t');
    (trim(field), rest.unwrap_or(&[]))
}

fn fields_in(text: &[u8]) -> Fields<'_> {
    let (first, rest) = field(text);
    let (second, rest) = field(rest);
    let (third, _) = field(rest);
    Fields {
        first,
        second,
        third,
    }
}

impl Reading<'_> {
    fn flaw(&self, why: Flaw) -> Trouble {
        Trouble::at(self.line, 0, why)
    }

    fn number(&self, text: &[u8]) -> Result<u32, Trouble> {
        decimal_in(text, 0xffff_ffff).ok_or(self.flaw(Flaw::NoNumber))
    }

    fn entry(&self, id: u32) -> Result<Entry, Trouble> {
        self.entries
            .get(&id)
            .copied()
            .ok_or(self.flaw(Flaw::NoEntry))
    }

    fn keep(&mut self, id: u32, entry: Entry) -> Result<(), AllocError> {
        self.entries.insert(id, entry)?;
        Ok(())
    }

    fn push(
        &mut self,
        id: u32,
        event: Event,
        moment: Moment,
        stage: Stage,
    ) -> Result<(), AllocError> {
        let placed = Placed {
            event,
            place: Place {
                line: self.line,
                cycle: self.cycle,
            },
            row: id as usize,
            stage,
            moment,
            is_missing: false,
        };
        self.events.push(placed)?;
        Ok(())
    }

    // The instruction is let.
    fn dispatch(&mut self, id: u32, entry: Entry) -> Result<(), Trouble> {
        if entry.position.is_some() {
            return Ok(());
        }
        let position = self.lets;
        self.lets = position.saturating_add(entry.halves());
        self.keep(
            id,
            Entry {
                position: Some(position),
                ..entry
            },
        )?;
        for _ in 0..entry.halves() {
            self.push(id, Event::Let(entry.pc(), None), Moment::Let, Stage::Let)?;
        }
        Ok(())
    }

    // The position of an instruction that something is done to.
    fn position(&self, entry: &Entry) -> Result<usize, Trouble> {
        entry.position.ok_or(self.flaw(Flaw::NotLet))
    }

    // A stage of an instruction begins.
    fn stage(&mut self, id: u32, name: &[u8]) -> Result<(), Trouble> {
        let entry = self.entry(id)?;
        let Some(step) = self.names.step_of(name) else {
            return Ok(());
        };
        if step == Step::Let {
            return self.dispatch(id, entry);
        }
        let position = self.position(&entry)?;
        if step == Step::Miss {
            self.keep(
                id,
                Entry {
                    has_missed: true,
                    ..entry
                },
            )?;
        }
        for half in 0..entry.halves() {
            let who = position.saturating_add(half);
            self.push_step(id, who, step, entry.has_missed)?;
        }
        Ok(())
    }

    fn push_step(
        &mut self,
        id: u32,
        who: usize,
        step: Step,
        has_missed: bool,
    ) -> Result<(), AllocError> {
        match step {
            Step::Begin => self.push(id, Event::Begin(who), Moment::Begin, Stage::Begin),
            Step::Address => self.push(id, Event::Execute(who, None), Moment::Read, Stage::Memory),
            Step::Read => {
                self.push(id, Event::Execute(who, None), Moment::Read, Stage::Memory)?;
                self.push(id, Event::Read(who, None), Moment::Read, Stage::Memory)
            }
            // what is done after a misprediction is mended
            Step::Complete if has_missed => {
                self.push(id, Event::Mend(who), Moment::Squash, Stage::Squash)
            }
            Step::Complete | Step::Miss => {
                self.push(id, Event::Complete(who, None), Moment::End, Stage::Write)
            }
            Step::Mend => self.push(id, Event::Mend(who), Moment::Squash, Stage::Squash),
            Step::Let | Step::Nothing => Ok(()),
        }
    }

    // An instruction retires, or is squashed.
    fn leave(&mut self, id: u32, is_squash: bool) -> Result<(), Trouble> {
        let entry = self.entry(id)?;
        let halves = entry.halves();
        for half in 0..halves {
            if is_squash {
                // what was fetched alone is not there
                let Some(position) = entry.position else {
                    return Ok(());
                };
                let who = position.saturating_add(halves.saturating_sub(half.saturating_add(1)));
                self.push(id, Event::Squash(Some(who)), Moment::Squash, Stage::Squash)?;
            } else {
                let who = self.position(&entry)?.saturating_add(half);
                self.push(
                    id,
                    Event::Retire(Some(who), None),
                    Moment::Retire,
                    Stage::Retire,
                )?;
            }
        }
        Ok(())
    }

    // Who makes a source of an instruction.
    fn source(&mut self, id: u32, producer: u32) -> Result<(), Trouble> {
        let (entry, producer) = (self.entry(id)?, self.entry(producer)?);
        match (entry.position, producer.position) {
            (Some(who), Some(from)) if entry.halves() == 1 && producer.halves() == 1 => {
                self.push(id, Event::From(who, from), Moment::Let, Stage::Let)?;
                Ok(())
            }
            _ => Ok(()),
        }
    }

    // A label of an instruction, of which the first one says where it stands.
    fn label(&mut self, id: u32, text: &[u8]) -> Result<(), Trouble> {
        let entry = self.entry(id)?;
        if entry.label.is_none() {
            let label = label_in(self.program, text);
            self.keep(id, Entry { label, ..entry })?;
        }
        Ok(())
    }
}

impl ReadsLines for Reading<'_> {
    fn read_line(&mut self, number: u64, text: &[u8]) -> Result<(), Trouble> {
        self.line = number;
        let (command, rest) = field(text);
        let Fields {
            first,
            second,
            third,
        } = fields_in(rest);
        match command {
            b"" | b"Kanata" | b"E" => return Ok(()),
            b"I" | b"L" | b"S" | b"R" | b"W" | b"C" | b"C=" => {}
            _ => return Err(self.flaw(Flaw::NoCommand)),
        }
        let number = self.number(first)?;
        match command {
            b"C=" => self.cycle = u64::from(number),
            b"C" => self.cycle = self.cycle.saturating_add(u64::from(number)),
            b"I" => self.keep(number, NEW)?,
            b"L" if matches!(second, b"0") => self.label(number, third)?,
            b"S" => self.stage(number, third)?,
            b"R" => self.leave(number, matches!(third, b"1"))?,
            b"W" => self.source(number, self.number(second)?)?,
            _ => {}
        }
        Ok(())
    }
}

const NEW: Entry = Entry {
    label: None,
    position: None,
    has_missed: false,
};

/// Reads such a log: its events, in the order of the file or of the cycles.
pub fn kanata_in(
    alloc: Global,
    program: &Program,
    bytes: &[u8],
    names: StepNames<'_>,
    within: Within,
) -> Result<Vec<Placed>, Trouble> {
    let mut reading = Reading {
        program,
        names,
        line: 0,
        cycle: 0,
        lets: 0,
        entries: BTreeMap::new(alloc),
        events: Vec::new(alloc),
    };
    read_lines(&mut reading, bytes)?;
    match within {
        Within::File => Ok(youngest_first(alloc, reading.events.as_slice())?),
        _ => Ok(in_order(alloc, reading.events.as_slice(), within)?),
    }
}
