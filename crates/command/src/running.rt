//! The run that a command line asks for.
ghost use Rattle.std.specs.Prelude.{◌≡◌, ◌-◌, ◌^◌, ◌<◌, IfSome, true};
ghost use Rattle.answers.specs.Answer.{most_taken};
ghost use Rattle.counted_io.specs.Counted.{failures_of, Gives};
ghost use Rattle.command_line.specs.Answered.{IsRepliedWith};
ghost use Rattle.command_line.specs.Exits.{HoldsOfInput, IsOfOneThread, refused};
ghost use Rattle.command_line.specs.Replies.{IfRefused};
ghost use Rattle.on_threads.specs.Answers.{IsAnswerBy, IsAsAlone};
ghost use Rattle.on_threads.specs.Runs.{CameToItsEnd, WasWritten};

use crate::single_thread::answered;
use crate::{Asked, Refusal};
use command_line::{Exit, refused};
use counted_io::Counted;
use pool::Gate;
use std::alloc::Global;
use std::io::{Read, Write};
use std::sync::Wait;
use std::thread::Threads;

/// Reads the listing, runs it and writes its report, or the line of the fault in its text. There is
/// no reader where the file did not open. A failed read or write is not tried again. The gate
/// watches the threads; none is started where the one-thread unit is asked for.
pub fn go<T: Threads + Wait + Sync, R: Read, W: Write, G: Gate + Sync>(
    wait: &T,
    alloc: Global,
    asked: &Asked<'_>,
    reader: &mut Option<Counted<R>>,
    writer: &mut Counted<W>,
    gate: &G,
) -> Exit
    requires reader_room { IfSome reader.old (λ r. failures_of r < 2 ^ 64 - 1) }
    requires writer_room { failures_of writer.old < 2 ^ 64 - 1 }
    // What was written whole answers the reader's bytes, and the status and the line go with it.
    ensures answer { IsRepliedWith R.remaining W.contents most_taken
        reader.old reader.new writer.old writer.new
        (IsAnswerBy result.line asked.now result) result.line }
    // Where the run came to its end, that is what one thread answers, byte for byte.
    ensures same { WasWritten result.line → CameToItsEnd asked.now.config.limit result →
        HoldsOfInput R.remaining reader.old (λ input. IsAsAlone asked.now.config.limit input result
        (Gives W.contents writer.old writer.new)) }
    ensures alone { asked.now.alone ≡ true → IsOfOneThread result.line }
    // A run that is refused has a status of its own.
    ensures refused { IfRefused result.line (λ refusal. result ≡ refused refusal) }
{
    if !asked.alone {
        return on_threads::go(wait, alloc, asked, reader, writer, gate);
    }
    let Some(reader) = reader else {
        return refused(Refusal::Open);
    };
    match answered(alloc, asked, reader, writer) {
        Ok(exit) => exit,
        Err(refusal) => refused(refusal),
    }
}
