//! From the bytes of a listing to the report of its run, its chart, and its log.
ghost use Rattle.std.specs.Prelude.{◌≡◌, ◌-◌, ◌^◌, ◌<◌, IfSome, Ok, is_some};
ghost use Rattle.isa.specs.Listing.{listing};
ghost use Rattle.counted_io.specs.Counted.{failures_of};
ghost use Rattle.command_line.specs.Exits.{refused};
ghost use Rattle.command_line.specs.declared.exit.Line.TheVariants.{Refused};
ghost use Rattle.chart.specs.Answers.{Charts, IsChartedWith, IsShown, IsShownInPart, Shows, log_refusal as log_refusal_of};

use crate::pictures::{draw, trace};
use crate::source::Source;
use answers::{MOST_TAKEN, Status};
use command_line::{Charted, Exit, Line, Refusal, refused};
use counted_io::{Counted, Fault, read_up_to, write_whole};
use instructions::Program;
use isa::{FaultKind, fault_text, parse_with_lines};
use std::alloc::Global;
use std::io::{Read, Write};

/// Reads the listing, runs it on the one-thread unit in the order of the seed, and writes its report; after it the chart of
/// that run, and then its log, where one is wanted. For a listing with a fault its line is written, and nothing else. There
/// is no reader where the file did not open. A device that failed is not tried again.
pub fn chart<R: Read, W: Write, L: Write>(
    alloc: Global,
    asked: &Charted<'_>,
    reader: &mut Option<Counted<R>>,
    writer: &mut Counted<W>,
    log: &mut Counted<L>,
) -> Exit
    requires reader_room { IfSome reader.old (λ r. failures_of r < 2 ^ 64 - 1) }
    requires writer_room { failures_of writer.old < 2 ^ 64 - 1 }
    requires log_room { failures_of log.old < 2 ^ 64 - 1 }
    ensures answer { IsChartedWith R.remaining W.contents L.contents asked.now reader.old reader.new
        writer.old writer.new log.old log.new result.status result.line }
    // A refusal has a status of its own.
    ensures refused { (refusal : Refusal) → result.line ≡ Refused refusal →
        result ≡ refused refusal }
{
    let Some(reader) = reader else {
        return refused(Refusal::Open);
    };
    match chart_input(alloc, asked, reader, writer, log) {
        Ok(status) => Exit {
            status: status.number(),
            line: Line::Nothing,
        },
        Err(refusal) => refused(refusal),
    }
}

// Reads a listing and writes what belongs to it. The result is the status, once all is written.
fn chart_input<R: Read, W: Write, L: Write>(
    alloc: Global,
    asked: &Charted<'_>,
    reader: &mut Counted<R>,
    writer: &mut Counted<W>,
    log: &mut Counted<L>,
) -> Result<Status, Refusal>
    requires reader_room { failures_of reader.old < 2 ^ 64 - 1 }
    requires writer_room { failures_of writer.old < 2 ^ 64 - 1 }
    requires log_room { failures_of log.old < 2 ^ 64 - 1 }
    ensures { Charts R.remaining W.contents L.contents asked.now reader.old reader.new
        writer.old writer.new log.old log.new result }
{
    let listing = read_up_to(alloc, reader, MOST_TAKEN)?;
    chart_listing(alloc, asked, listing.as_slice(), writer, log)
}

// Writes what belongs to the bytes of a listing.
fn chart_listing<W: Write, L: Write>(
    alloc: Global,
    asked: &Charted<'_>,
    bytes: &[u8],
    writer: &mut Counted<W>,
    log: &mut Counted<L>,
) -> Result<Status, Refusal>
    requires writer_room { failures_of writer.old < 2 ^ 64 - 1 }
    requires log_room { failures_of log.old < 2 ^ 64 - 1 }
    ensures { Shows W.contents L.contents (is_some asked.now.log)
        (IsShown asked.now.run.config.limit (listing bytes.now))
        (IsShownInPart asked.now.run.config.limit (listing bytes.now))
        writer.old writer.new log.old log.new result }
{
    match parse_with_lines(alloc, bytes) {
        Ok((program, numbers)) => {
            let source = Source::new(alloc, bytes, numbers)?;
            chart_program(alloc, asked, &source, &program, writer, log)
        }
        Err(fault) if fault.kind == FaultKind::Memory => Err(Refusal::Memory),
        Err(fault) => {
            let line = fault_text(alloc, &fault)?;
            write_whole(writer, line.as_str().as_bytes())?;
            Ok(Status::TextFault)
        }
    }
}

// Writes the report of a program's run and its chart, and then its log, where one is wanted.
fn chart_program<W: Write, L: Write>(
    alloc: Global,
    asked: &Charted<'_>,
    source: &Source<'_>,
    program: &Program,
    writer: &mut Counted<W>,
    log: &mut Counted<L>,
) -> Result<Status, Refusal>
    requires writer_room { failures_of writer.old < 2 ^ 64 - 1 }
    requires log_room { failures_of log.old < 2 ^ 64 - 1 }
    ensures { Shows W.contents L.contents (is_some asked.now.log)
        (IsShown asked.now.run.config.limit (Ok program.now))
        (IsShownInPart asked.now.run.config.limit (Ok program.now))
        writer.old writer.new log.old log.new result }
{
    let status = draw(alloc, asked, source, program, writer)?;
    if asked.log.is_none() {
        return Ok(status);
    }
    match trace(alloc, asked, source, program, log) {
        Ok(()) => Ok(status),
        Err(fault) => Err(log_refusal(fault)),
    }
}

// What is refused where a log was not written.
fn log_refusal(fault: Fault) -> Refusal
    ensures { result ≡ log_refusal_of fault }
{
    match fault {
        Fault::Write => Refusal::Trace,
        Fault::Read | Fault::Memory => Refusal::from(fault),
    }
}
