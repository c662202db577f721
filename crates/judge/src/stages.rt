//! Logs that tell in which cycle each stage of an instruction is.
use crate::asked::Asked;
use crate::log::{Ended, Judging, UNREAD};
use counted_io::{Counted, Fault, read_up_to};
use events::Item;
use instructions::Program;
use lexical::cut;
use sheets::{
    Held, Misread, Placed, Sheet, Stage, StepNames, Trouble, Within, begins_kanata,
    begins_pipeview, begins_table, held_in, kanata_in, pipeview_in, sheet_in,
};
use std::alloc::{AllocError, Global};
use std::io::Read;

/// The most bytes of such a log.
const MOST_BYTES: usize = 0x1000_0000;

/// The formats of logs that tell in which cycle each stage of an instruction is.
#[derive(Clone, Copy)]
pub enum Format {
    Table,
    Kanata,
    PipeView,
}

/// The format of a log with this first line, if it has cycles.
pub fn format_of(line: &[u8]) -> Option<Format> {
    let (line, _) = cut(line, b'\n');
    let (line, _) = cut(line, b'\r');
    if begins_kanata(line) {
        Some(Format::Kanata)
    } else if begins_pipeview(line) {
        Some(Format::PipeView)
    } else if begins_table(line) {
        Some(Format::Table)
    } else {
        None
    }
}

/// The text of a place that is not read.
pub fn misread_text(alloc: Global, misread: &Misread) -> Result<String, AllocError> {
    let (line, cell, why) = (misread.line, misread.cell, misread.why);
    if cell == 0 {
        format!(in alloc; "unread line {line}: {why}\n")
    } else {
        format!(in alloc; "unread line {line} cell {cell}: {why}\n")
    }
}

// The events of such a log.
#[derive(Drop)]
struct Log {
    events: Vec<Placed>,
    /// The position of each row of a table.
    rows: Vec<usize>,
    has_commits: bool,
}

// The log of a table.
fn log_of(alloc: Global, sheet: &Sheet) -> Result<Log, Trouble> {
    let mut rows = Vec::new(alloc);
    for row in sheet.rows.iter() {
        rows.push(row.position)?;
    }
    Ok(Log {
        events: sheet.told(alloc)?,
        rows,
        has_commits: sheet.columns.has(Stage::Retire),
    })
}

fn log_in(
    alloc: Global,
    program: &Program,
    asked: &Asked<'_>,
    format: Format,
    bytes: &[u8],
) -> Result<Log, Trouble> {
    match format {
        Format::Table => {
            let within = asked.within.unwrap_or(Within::Strict);
            let sheet = sheet_in(alloc, program, bytes, asked.issue, within)?;
            log_of(alloc, &sheet)
        }
        Format::PipeView => {
            let within = asked.within.unwrap_or(Within::Bypass);
            let sheet = pipeview_in(alloc, program, bytes, within)?;
            log_of(alloc, &sheet)
        }
        Format::Kanata => {
            let within = asked.within.unwrap_or(Within::File);
            let names = StepNames {
                given: asked.stages.as_slice(),
            };
            Ok(Log {
                events: kanata_in(alloc, program, bytes, names, within)?,
                rows: Vec::new(alloc),
                has_commits: true,
            })
        }
    }
}

/// The text of a log with more bytes.
pub fn too_long(alloc: Global) -> Result<String, AllocError> {
    format!(in alloc; "unread: a log with cycles has at most {MOST_BYTES} bytes\n")
}

/// The bytes of a reader; none where there are more than those of a log with cycles.
pub fn whole<R: Read + Drop>(alloc: Global, reader: R) -> Result<Option<Vec<u8>>, Fault> {
    let bytes = read_up_to(alloc, &mut Counted::new(reader), MOST_BYTES + 1)?;
    if bytes.len() > MOST_BYTES {
        return Ok(None);
    }
    Ok(Some(bytes))
}

/// Judges such a log.
pub fn judged_stages<R: Read + Drop>(
    alloc: Global,
    program: &Program,
    asked: &Asked<'_>,
    format: Format,
    judging: Judging<'_>,
    log: R,
) -> Result<Ended, Fault> {
    let Some(bytes) = whole(alloc, log)? else {
        return Ok(Ended {
            text: too_long(alloc)?,
            status: UNREAD,
        });
    };
    match log_in(alloc, program, asked, format, bytes.as_slice()) {
        Ok(log) => judged_log(judging, log),
        Err(Trouble::Memory) => Err(Fault::Memory),
        Err(Trouble::Misread(misread)) => Ok(Ended {
            text: misread_text(alloc, &misread)?,
            status: UNREAD,
        }),
    }
}

fn judged_log(mut judging: Judging<'_>, log: Log) -> Result<Ended, Fault> {
    judging.rows = log.rows;
    for placed in log.events.iter() {
        let item = Item {
            line: placed.place.line,
            cycle: Some(placed.place.cycle),
            event: placed.event,
        };
        if let Some(ended) = judging.take(item)? {
            return Ok(ended);
        }
    }
    let mut ended = judging.end()?;
    if !log.has_commits {
        ended.text.push_str(
            "# no column says when an instruction commits: the rows are judged up to their results\n",
        )?;
    }
    Ok(ended)
}

/// The stations of a reader's table, or how the program ends where it is not read.
pub fn stations_in<R: Read + Drop>(
    alloc: Global,
    table: R,
) -> Result<Result<Vec<Held>, Ended>, Fault> {
    let text = match whole(alloc, table)? {
        None => too_long(alloc)?,
        Some(bytes) => match held_in(alloc, bytes.as_slice()) {
            Ok(held) => return Ok(Ok(held)),
            Err(Trouble::Memory) => return Err(Fault::Memory),
            Err(Trouble::Misread(misread)) => misread_text(alloc, &misread)?,
        },
    };
    Ok(Err(Ended {
        text,
        status: UNREAD,
    }))
}
