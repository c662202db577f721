//! The run on threads that a command line asks for.
ghost use Rattle.std.specs.Prelude.{◌≡◌, ◌-◌, ◌^◌, ◌<◌, IfSome, IfOk, IfErr, false};
ghost use Rattle.answers.specs.Answer.{most_taken};
ghost use Rattle.counted_io.specs.Counted.{failures_of, Gives};
ghost use Rattle.counted_io.specs.Replies.{HasReplied};
ghost use Rattle.command_line.specs.Answered.{IsRepliedWith, IsUnansweredBy};
ghost use Rattle.command_line.specs.Exits.{HoldsOfInput, refused};
ghost use Rattle.command_line.specs.Replies.{IfRefused};
ghost use Rattle.on_threads.specs.Answers.{IsAnswerBy, IsAnswerTo, IsAsAlone, IsSomeAnswerTo};
ghost use Rattle.on_threads.specs.Runs.{CameToItsEnd, WasWritten};

use crate::threads::tell;
use answers::read_listing;
use command_line::{Asked, Exit, Refusal, choose, refused};
use counted_io::{Counted, write_whole};
use pool::Gate;
use std::alloc::Global;
use std::io::{Read, Write};
use std::sync::Wait;
use std::thread::Threads;

/// Reads the listing, runs it on threads and writes its report, or the line of the fault in its text. There is no reader
/// where the file did not open. A failed read or write is not tried again. The gate watches the threads.
pub fn go<T: Threads + Wait + Sync, R: Read, W: Write, G: Gate + Sync>(
    wait: &T,
    alloc: Global,
    asked: &Asked<'_>,
    reader: &mut Option<Counted<R>>,
    writer: &mut Counted<W>,
    gate: &G,
) -> Exit
    requires threads { asked.now.alone ≡ false }
    requires reader_room { IfSome reader.old (λ r. failures_of r < 2 ^ 64 - 1) }
    requires writer_room { failures_of writer.old < 2 ^ 64 - 1 }
    // What was written whole answers the reader's bytes, and the status and the line go with it.
    ensures answer { IsRepliedWith R.remaining W.contents most_taken
        reader.old reader.new writer.old writer.new
        (IsAnswerBy result.line asked.now result) result.line }
    // Where the run came to its end, that is what one thread answers, byte for byte.
    ensures same { WasWritten result.line → CameToItsEnd asked.now.config.limit result →
        HoldsOfInput R.remaining reader.old (λ input. IsAsAlone asked.now.config.limit input result
        (Gives W.contents writer.old writer.new)) }
    // A run that is refused has a status of its own.
    ensures refused { IfRefused result.line (λ refusal. result ≡ refused refusal) }
{
    let Some(reader) = reader else {
        return refused(Refusal::Open);
    };
    match answered(wait, alloc, asked, reader, writer, gate) {
        Ok(exit) => exit,
        Err(refusal) => refused(refusal),
    }
}

// Reads a listing, runs it as is asked for, and writes the report of its run, or the line of its fault.
fn answered<T: Threads + Wait + Sync, R: Read, W: Write, G: Gate + Sync>(
    wait: &T,
    alloc: Global,
    asked: &Asked<'_>,
    reader: &mut Counted<R>,
    writer: &mut Counted<W>,
    gate: &G,
) -> Result<Exit, Refusal>
    requires threads { asked.now.alone ≡ false }
    requires reader_room { failures_of reader.old < 2 ^ 64 - 1 }
    requires writer_room { failures_of writer.old < 2 ^ 64 - 1 }
    ensures ok { IfOk result (λ exit. HasReplied R.remaining W.contents most_taken
        reader.old reader.new writer.old writer.new (IsAnswerTo asked.now exit)) }
    ensures line { IfOk result (λ exit. WasWritten exit.line) }
    ensures err { IfErr result (IsUnansweredBy R.remaining W.contents most_taken
        reader.old reader.new writer.old writer.new (IsSomeAnswerTo asked.now)) }
{
    let listing = read_listing(alloc, reader)?;
    let predictor = choose(asked.predictor);
    let (exit, text) = tell(wait, alloc, asked, listing, predictor, gate)?;
    write_whole(writer, text.as_str().as_bytes())?;
    Ok(exit)
}
