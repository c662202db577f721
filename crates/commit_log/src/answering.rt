//! From the bytes of a listing to the log of its commits.
ghost use Rattle.std.specs.Prelude.{◌≡◌, ◌-◌, ◌^◌, ◌<◌, IfSome, Ok};
ghost use Rattle.isa.specs.Listing.{listing};
ghost use Rattle.counted_io.specs.Counted.{failures_of};
ghost use Rattle.counted_io.specs.Writes.{Answers, IsBeginning, Writes};
ghost use Rattle.answers.specs.Answer.{most_taken, status_number};
ghost use Rattle.command_line.specs.Answered.{IsAnsweredWith};
ghost use Rattle.command_line.specs.Exits.{refused};
ghost use Rattle.command_line.specs.declared.exit.Line.TheVariants.{Refused};
ghost use Rattle.commit_log.specs.Logs.{IsLogOf, log, log_for};

use crate::logging::log_run;
use answers::{Status, read_listing};
use command_line::{Exit, Line, Logged, Refusal, refused};
use counted_io::{Counted, Fault, write_whole};
use instructions::Program;
use std::alloc::Global;
use std::io::{Read, Write};

/// Reads the listing, runs it in order, and writes the log that is asked for: what is written is that log, or a beginning of
/// it. For a listing with a fault its line is written, and nothing else. There is no reader where the file did not open. A
/// device that failed is not tried again.
pub fn log_commits<R: Read, W: Write>(
    alloc: Global,
    asked: &Logged<'_>,
    reader: &mut Option<Counted<R>>,
    writer: &mut Counted<W>,
) -> Exit
    requires reader_room { IfSome reader.old (λ r. failures_of r < 2 ^ 64 - 1) }
    requires writer_room { failures_of writer.old < 2 ^ 64 - 1 }
    ensures answer { IsAnsweredWith R.remaining W.contents most_taken
        reader.old reader.new writer.old writer.new
        (λ input. IsLogOf asked.now (listing input) result.status)
        (λ input. IsBeginning (log_for asked.now (listing input))) result.line }
    // A refusal has a status of its own.
    ensures refused { (refusal : Refusal) → result.line ≡ Refused refusal →
        result ≡ refused refusal }
{
    let Some(reader) = reader else {
        return refused(Refusal::Open);
    };
    match log_listing(alloc, asked, reader, writer) {
        Ok(status) => Exit {
            status: status.number(),
            line: Line::Nothing,
        },
        Err(fault) => refused(Refusal::from(fault)),
    }
}

// Reads a listing and logs its run. The result is the status, once all is written.
fn log_listing<R: Read, W: Write>(
    alloc: Global,
    asked: &Logged<'_>,
    reader: &mut Counted<R>,
    writer: &mut Counted<W>,
) -> Result<Status, Fault>
    requires reader_room { failures_of reader.old < 2 ^ 64 - 1 }
    requires writer_room { failures_of writer.old < 2 ^ 64 - 1 }
    ensures { Answers R.remaining W.contents most_taken
        reader.old reader.new writer.old writer.new
        (λ status input. IsLogOf asked.now (listing input) (status_number status))
        (λ input. IsBeginning (log_for asked.now (listing input))) result }
{
    match read_listing(alloc, reader)? {
        Ok(program) => Ok(Status::of(log_run(alloc, asked, &program, writer)?)),
        Err(line) => {
            write_whole(writer, line.as_str().as_bytes())?;
            Ok(Status::TextFault)
        }
    }
}
