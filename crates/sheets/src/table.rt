//! Tables, as a spreadsheet writes them.
use crate::cells::Span;
use crate::columns::{Column, Columns, is_name};
use crate::misread::{Flaw, Trouble};
use crate::naming::named_in;
use crate::row::Row;
use csv::{ByteRecord, ErrorKind, Reader, ReaderBuilder};
use events::Issue;
use instructions::Program;
use lexical::{cut, decimal_in, number_in, trim};
use std::alloc::Global;

const MOST_ROWS: usize = 100_000;

const MOST_CYCLES: u32 = 999_999_999;

/// The byte between the cells: the first of these that a header has.
pub(crate) fn separator(header: &[u8]) -> u8 {
    for byte in [b';', b'\t', b'|'] {
        if header.contains(&byte) {
            return byte;
        }
    }
    b','
}

/// A line is the header of a table: two of its cells are names of columns.
pub fn begins_table(line: &[u8]) -> bool {
    let mut names = 0u32;
    let between = separator(line);
    let mut rest = Some(line);
    for _ in 0..line.len() {
        let Some(text) = rest else {
            break;
        };
        let (cell, after) = cut(text, between);
        if is_name(trim(cell)) {
            names = names.saturating_add(1);
        }
        rest = after;
    }
    names >= 2
}

fn cycle_in(text: &[u8]) -> Result<u64, Flaw> {
    match decimal_in(trim(text), MOST_CYCLES) {
        Some(cycle) => Ok(u64::from(cycle)),
        None => Err(Flaw::NoCycle),
    }
}

// `3`, `3-5`, `-` or nothing.
fn span_in(cell: &[u8]) -> Result<Option<Span>, Flaw> {
    if cell.is_empty() || matches!(cell, b"-") {
        return Ok(None);
    }
    let (first, last) = cut(cell, b'-');
    let first = cycle_in(first)?;
    let last = match last {
        Some(last) => cycle_in(last)?,
        None => first,
    };
    if last < first {
        return Err(Flaw::Backwards);
    }
    Ok(Some(Span { first, last }))
}

fn number_of(cell: &[u8]) -> Result<Option<u32>, Flaw> {
    if cell.is_empty() || matches!(cell, b"-") {
        return Ok(None);
    }
    match number_in(cell, 0x8000_0000, 0xffff_ffff) {
        Some(number) => Ok(Some(number)),
        None => Err(Flaw::NoNumber),
    }
}

// A cell of a row that is being read.
#[derive(Clone, Copy)]
struct Cell<'a> {
    text: &'a [u8],
    column: Column,
    line: u64,
    number: usize,
}

impl Cell<'_> {
    fn checked<T>(&self, found: Result<T, Flaw>) -> Result<T, Trouble> {
        match found {
            Ok(found) => Ok(found),
            Err(why) => Err(Trouble::at(self.line, self.number, why)),
        }
    }

    // A row with this cell.
    fn added_to(&self, alloc: Global, program: &Program, row: &Row) -> Result<Row, Trouble> {
        Ok(match self.column {
            Column::Instr => Row {
                named: named_in(alloc, program, self.text)?,
                ..*row
            },
            Column::Cycle(stage) => Row {
                cells: row.cells.with(stage, self.checked(span_in(self.text))?),
                ..*row
            },
            Column::Value => Row {
                value: self.checked(number_of(self.text))?,
                ..*row
            },
            Column::Next => Row {
                next: self.checked(number_of(self.text))?,
                ..*row
            },
            Column::Issue | Column::Note => *row,
        })
    }
}

/// A table: its columns and its rows.
#[derive(Drop)]
pub(crate) struct Table {
    pub(crate) columns: Columns,
    pub(crate) rows: Vec<Row>,
}

fn line_of(record: &ByteRecord) -> u64 {
    match record.position() {
        Some(position) => position.line(),
        None => 0,
    }
}

fn is_blank(record: &ByteRecord) -> bool {
    record.iter().all(|cell| trim(cell).is_empty())
}

fn row_in(
    alloc: Global,
    program: &Program,
    columns: &Columns,
    record: &ByteRecord,
) -> Result<Row, Trouble> {
    let line = line_of(record);
    let mut row = Row::of_line(line);
    for (at, text) in record.iter().enumerate() {
        let text = trim(text);
        let number = at.saturating_add(1);
        match columns.at(at) {
            Some(column) => {
                let cell = Cell {
                    text,
                    column,
                    line,
                    number,
                };
                row = cell.added_to(alloc, program, &row)?;
            }
            None if text.is_empty() => {}
            None => return Err(Trouble::at(line, number, Flaw::MoreCells)),
        }
    }
    Ok(row)
}

fn next_record(reader: &mut Reader<&[u8]>, record: &mut ByteRecord) -> Result<bool, Trouble> {
    match reader.read_byte_record(record) {
        Ok(found) => Ok(found),
        Err(error) => match error.kind() {
            ErrorKind::OutOfMemory => Err(Trouble::Memory),
            _ => Err(Trouble::at(0, 0, Flaw::MoreCells)),
        },
    }
}

/// Reads a table.
pub(crate) fn table_in(
    alloc: Global,
    program: &Program,
    bytes: &[u8],
    issue: Issue,
) -> Result<Table, Trouble> {
    let (header, _) = cut(bytes, b'\n');
    let mut builder = ReaderBuilder::new();
    builder
        .has_headers(false)
        .flexible(true)
        .delimiter(separator(header));
    let mut reader = builder.from_reader(alloc, bytes);
    let mut record = ByteRecord::new(alloc);
    if !next_record(&mut reader, &mut record)? {
        return Err(Trouble::at(1, 0, Flaw::NoDispatch));
    }
    let columns = Columns::of_header(alloc, line_of(&record), &record, issue)?;
    let mut rows = Vec::new(alloc);
    for _ in 0..usize::MAX {
        if !next_record(&mut reader, &mut record)? {
            break;
        }
        if is_blank(&record) {
            continue;
        }
        if rows.len() >= MOST_ROWS {
            return Err(Trouble::at(line_of(&record), 0, Flaw::MoreRows));
        }
        rows.push(row_in(alloc, program, &columns, &record)?)?;
    }
    Ok(Table { columns, rows })
}
