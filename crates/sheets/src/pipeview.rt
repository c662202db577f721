//! Logs of gem5's `O3PipeView` lines: seven for each instruction, with the tick of each stage, 0 where it was not reached.
use crate::cells::Span;
use crate::columns::Columns;
use crate::lines::{ReadsLines, read_lines};
use crate::misread::{Flaw, Trouble};
use crate::naming::Named;
use crate::order::Within;
use crate::row::Row;
use crate::sheet::{Sheet, sheet_of};
use crate::stage::Stage;
use instructions::Program;
use lexical::{cut, number_in};
use std::alloc::{AllocError, Global};
use std::str;

/// A first line is that of such a log.
pub fn begins_pipeview(line: &[u8]) -> bool {
    let (first, _) = cut(line, b':');
    matches!(first, b"O3PipeView")
}

// An instruction of the log, by its number.
#[derive(Clone, Copy)]
struct Entry {
    number: u64,
    row: Row,
}

#[derive(Drop)]
struct Reading {
    line: u64,
    last: Option<Entry>,
    entries: Vec<Entry>,
}

fn field(text: &[u8]) -> (&[u8], &[u8]) {
    let (field, rest) = cut(text, b':');
    (field, rest.unwrap_or(&[]))
}

fn stage_in(word: &[u8]) -> Option<Stage> {
    Some(match word {
        b"dispatch" => Stage::Let,
        b"issue" => Stage::Begin,
        b"complete" => Stage::Write,
        b"retire" => Stage::Retire,
        _ => return None,
    })
}

impl Reading {
    fn flaw(&self, why: Flaw) -> Trouble {
        Trouble::at(self.line, 0, why)
    }

    fn tick(&self, text: &[u8]) -> Result<u64, Trouble> {
        match str::from_utf8(text) {
            Ok(text) => text.parse::<u64>().ok().ok_or(self.flaw(Flaw::NoNumber)),
            Err(_) => Err(self.flaw(Flaw::NoNumber)),
        }
    }

    // The instruction that was read last, unless it never entered a station.
    fn keep(&mut self) -> Result<(), AllocError> {
        if let Some(entry) = self.last.take() {
            if entry.row.cells.of(Stage::Let).is_some() {
                self.entries.push(entry)?;
            }
        }
        Ok(())
    }

    // An instruction is fetched, whose fields are its tick, pc, part, number and text.
    fn fetch(&mut self, text: &[u8]) -> Result<(), Trouble> {
        self.keep()?;
        let (_, rest) = field(text);
        let (pc, rest) = field(rest);
        let (part, rest) = field(rest);
        let (number, _) = field(rest);
        if !matches!(part, b"0") {
            return Err(self.flaw(Flaw::Parts));
        }
        let Some(pc) = number_in(pc, 0, 0xffff_ffff) else {
            return Err(self.flaw(Flaw::NoNumber));
        };
        let number = self.tick(number)?;
        let row = Row {
            named: Named::Pc(pc),
            ..Row::of_line(self.line)
        };
        self.last = Some(Entry { number, row });
        Ok(())
    }

    // A stage of the instruction that was read last, whose first field is its tick.
    fn stage(&mut self, stage: Stage, text: &[u8]) -> Result<(), Trouble> {
        let (tick, _) = field(text);
        let tick = self.tick(tick)?;
        let Some(entry) = self.last else {
            return Err(self.flaw(Flaw::NoCommand));
        };
        if tick > 0 {
            let span = Span {
                first: tick,
                last: tick,
            };
            let cells = entry.row.cells.with(stage, Some(span));
            let row = Row { cells, ..entry.row };
            self.last = Some(Entry { row, ..entry });
        }
        Ok(())
    }
}

impl ReadsLines for Reading {
    fn read_line(&mut self, number: u64, text: &[u8]) -> Result<(), Trouble> {
        self.line = number;
        if text.is_empty() {
            return Ok(());
        }
        let (name, rest) = field(text);
        let (word, rest) = field(rest);
        match (name, word) {
            (b"O3PipeView", b"fetch") => self.fetch(rest),
            (b"O3PipeView", b"decode" | b"rename") => Ok(()),
            (b"O3PipeView", word) => match stage_in(word) {
                Some(stage) => self.stage(stage, rest),
                None => Err(self.flaw(Flaw::NoCommand)),
            },
            _ => Err(self.flaw(Flaw::NoCommand)),
        }
    }
}

const STAGES: [Stage; 4] = [Stage::Let, Stage::Begin, Stage::Write, Stage::Retire];

/// Reads such a log as a table, whose rows are in the order of the instructions' numbers.
pub fn pipeview_in(
    alloc: Global,
    program: &Program,
    bytes: &[u8],
    within: Within,
) -> Result<Sheet, Trouble> {
    let mut reading = Reading {
        line: 0,
        last: None,
        entries: Vec::new(alloc),
    };
    read_lines(&mut reading, bytes)?;
    reading.keep()?;
    reading.entries.sort_by_key(|entry| entry.number)?;
    let mut rows = Vec::new(alloc);
    for entry in reading.entries.iter() {
        rows.push(entry.row)?;
    }
    let columns = Columns::of_stages(alloc, STAGES.as_slice())?;
    sheet_of(alloc, program, columns, rows.as_slice(), within)
}
