//! A listing that is read and not run.
ghost use Rattle.std.specs.Prelude.{◌-◌, ◌^◌, ◌<◌, IfErr, IfOk, IfSome};
ghost use Rattle.answers.specs.Answer.{most_taken};
ghost use Rattle.counted_io.specs.Counted.{failures_of};
ghost use Rattle.counted_io.specs.Replies.{HasReplied, IsUnanswered};
ghost use Rattle.command_line.specs.Answered.{IsRepliedWith};
ghost use Rattle.checker.specs.Checked.{IsCheck, IsCheckBy, IsExitOfOneThread, IsSomeCheck};

use crate::diagnostics::diagnostics;
use answers::MOST_TAKEN;
use command_line::{Checked, Exit, Line, Refusal, refused};
use counted_io::{Counted, Fault, read_up_to, write_whole};
use std::alloc::Global;
use std::io::{Read, Write};

/// Reads a listing and writes its diagnostics, without a run: the numbers of instructions, labels and bytes of data with
/// warnings, or a fault with its place, or all faults. The status is 0 or 2, or that of a refusal.
/// There is no reader where the file did not open. A failed read or write is not tried again.
pub fn check<R: Read, W: Write>(
    alloc: Global,
    asked: &Checked<'_>,
    reader: &mut Option<Counted<R>>,
    writer: &mut Counted<W>,
) -> Exit
    requires reader_room { IfSome reader.old (λ r. failures_of r < 2 ^ 64 - 1) }
    requires writer_room { failures_of writer.old < 2 ^ 64 - 1 }
    // What is written is the diagnostics of the reader's bytes, or a beginning of some.
    ensures answer { IsRepliedWith R.remaining W.contents most_taken
        reader.old reader.new writer.old writer.new
        (IsCheckBy result.line asked.now.file.now asked.now.all result.status) result.line }
    ensures exit { IsExitOfOneThread result }
{
    let Some(reader) = reader else {
        return refused(Refusal::Open);
    };
    match answered(alloc, asked, reader, writer) {
        Ok(status) => Exit {
            status,
            line: Line::Nothing,
        },
        Err(fault) => refused(Refusal::from(fault)),
    }
}

// Reads a listing and writes its diagnostics. The result is the status.
fn answered<R: Read, W: Write>(
    alloc: Global,
    asked: &Checked<'_>,
    reader: &mut Counted<R>,
    writer: &mut Counted<W>,
) -> Result<u8, Fault>
    requires reader_room { failures_of reader.old < 2 ^ 64 - 1 }
    requires writer_room { failures_of writer.old < 2 ^ 64 - 1 }
    ensures ok { IfOk result (λ status. HasReplied R.remaining W.contents most_taken
        reader.old reader.new writer.old writer.new
        (IsCheck asked.now.file.now asked.now.all status)) }
    ensures err { IfErr result (IsUnanswered R.remaining W.contents most_taken
        reader.old reader.new writer.old writer.new
        (IsSomeCheck asked.now.file.now asked.now.all)) }
{
    let listing = read_up_to(alloc, reader, MOST_TAKEN)?;
    let (status, text) = diagnostics(alloc, asked.file, listing.as_slice(), asked.all)?;
    write_whole(writer, text.as_slice())?;
    Ok(status)
}
