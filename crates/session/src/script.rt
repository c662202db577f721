//! A whole script: each of its lines is answered before the next one is read.
ghost use Rattle.std.specs.Prelude.{◌≡◌, ◌≢◌, ◌+◌, ◌-◌, ◌^◌, ◌<◌, ◌++◌, ◌&&◌, IfErr, IfNone, IfOk, IfSome, OnOk};
ghost use Rattle.std.specs.Io.BufRead.{strip_last};
ghost use Rattle.counted_io.specs.Counted.{failures_of, known_by};
ghost use Rattle.session.specs.Lines.{IsLine, is_command};
ghost use Rattle.session.specs.Tokens.{tokens_of};
ghost use Rattle.session.specs.Transcripts.{IsWrittenOfLine, echo_text};
ghost use Rattle.session.specs.Scripts.{HasBroken, HasDriven, HasTold, LineIsCut, LineIsTold, NothingWasLeft, write_failures, line_of};

use crate::reading::{Line, ends_script, is_command, line_in, times_in};
use crate::session::Session;
use crate::undo::push_told;
use back::OfProgram;
use counted_io::{Counted, Fault, write_whole};
use instructions::Predictor;
use std::alloc::{AllocError, Global};
use std::io::{BufRead, ErrorKind, Write};
use std::sync::Wait;

fn without_last(text: &[u8], last: u8) -> &[u8]
    ensures { result.now ≡ strip_last last text.now }
{
    let n = text.len();
    if n > 0 && text[n - 1] == last {
        &text[..n - 1]
    } else {
        text
    }
}

// A line without what ends it.
fn line_in_chunk(chunk: &[u8]) -> &[u8]
    ensures { result.now ≡ line_of chunk.now }
{
    without_last(without_last(chunk, b'\n'), b'\r')
}

// Adds a line as it is told before its answer.
fn push_echo(out: &mut Vec<u8>, echo: bool, line: &[u8]) -> Result<(), AllocError>
    ensures { OnOk result (out.new.items ≡ out.old.items ++ echo_text echo line.now) }
{
    if echo {
        out.extend_from_slice(b"> ")?;
        out.extend_from_slice(line)?;
        out.push(b'\n')?;
    }
    Ok(())
}

/// Does what a line of this number asks for, and gives what is written for it.
pub(crate) fn written<P: Predictor + Copy + Drop, J: OfProgram, R: Wait>(
    wait: &R,
    alloc: Global,
    session: &mut Session<'_, P, J>,
    number: u64,
    line: &[u8],
    asked: Line,
    echo: bool,
) -> Result<Vec<u8>, AllocError>
    requires { IsLine (tokens_of line.now) asked }
    ensures { IfOk result (λ text.
        IsWrittenOfLine echo session.old session.new number line.now text.items) }
{
    let mut out = Vec::new(alloc);
    push_echo(&mut out, echo, line)?;
    let times = times_in(line, asked);
    push_told(wait, alloc, session, number, asked, times, &mut out)?;
    Ok(out)
}

// Reads the line of this number, tells what is told of it, and gives the line. There is none at the end of the script.
fn tell_line<P: Predictor + Copy + Drop, J: OfProgram, R: Wait, I: BufRead, W: Write>(
    wait: &R,
    alloc: Global,
    session: &mut Session<'_, P, J>,
    reader: &mut I,
    writer: &mut Counted<W>,
    number: u64,
    echo: bool,
) -> Result<Option<Line>, Fault>
    requires { failures_of writer.old < 2 ^ 64 - 1 }
    ensures quiet { OnOk result (failures_of writer.new ≡ failures_of writer.old) }
    ensures line { IfOk result (λ told. IfSome told
        (LineIsTold echo (I.remaining reader.old) (I.remaining reader.new) session.old session.new
        number (known_by W.contents writer.old) (known_by W.contents writer.new))) }
    ensures end { IfOk result (λ told. IfNone told
        (NothingWasLeft (I.remaining reader.old) session.old session.new
        (known_by W.contents writer.old) (known_by W.contents writer.new))) }
    ensures silent { IfErr result (λ fault. fault ≢ Fault.Write → writer.new ≡ writer.old) }
    ensures write { IfErr result (λ fault.
        failures_of writer.new ≡ failures_of writer.old + write_failures fault) }
    ensures cut { IfErr result (λ fault. fault ≡ Fault.Write →
        LineIsCut echo (I.remaining reader.old) session.old number
        (known_by W.contents writer.old) (known_by W.contents writer.new)) }
{
    let mut chunk = Vec::new(alloc);
    let count = match reader.read_until(b'\n', &mut chunk) {
        Ok(count) => count,
        Err(error) => {
            return Err(match error.kind() {
                ErrorKind::OutOfMemory => Fault::Memory,
                _ => Fault::Read,
            });
        }
    };
    if count == 0 {
        return Ok(None);
    }
    let line = line_in_chunk(chunk.as_slice());
    let asked = line_in(line);
    let text = written(wait, alloc, session, number, line, asked, echo)?;
    write_whole(writer, text.as_slice())?;
    Ok(Some(asked))
}

// Whether each line up to this one is a command.
fn is_each(each: bool, line: Line) -> bool
    ensures { result ≡ (each && is_command line) }
{
    each && is_command(line)
}

/// Answers the lines of a script, up to its end or a line that ends it, each behind the line itself where that is wanted.
/// What is written is the transcript. Gives whether each line was a command.
pub fn drive<P: Predictor + Copy + Drop, J: OfProgram, R: Wait, I: BufRead, W: Write>(
    wait: &R,
    alloc: Global,
    session: &mut Session<'_, P, J>,
    reader: &mut I,
    writer: &mut Counted<W>,
    echo: bool,
) -> Result<bool, Fault>
    requires { failures_of writer.old < 2 ^ 64 - 1 }
    ensures ok { IfOk result (HasDriven echo (I.remaining reader.old) session.old session.new
        (known_by W.contents writer.old) (known_by W.contents writer.new)) }
    ensures quiet { OnOk result (failures_of writer.new ≡ failures_of writer.old) }
    // The writer is blamed for one failed call, and only then.
    ensures write { IfErr result (λ fault.
        failures_of writer.new ≡ failures_of writer.old + write_failures fault) }
    // Where the script or memory ends early, some of its lines were answered, and those alone.
    ensures told { IfErr result (λ fault. fault ≢ Fault.Write →
        HasTold echo (I.remaining reader.old) session.old
        (known_by W.contents writer.old) (known_by W.contents writer.new)) }
    // Where the writer fails, a proper beginning of one more answer went out.
    ensures broken { IfErr result (λ fault. fault ≡ Fault.Write →
        HasBroken echo (I.remaining reader.old) session.old
        (known_by W.contents writer.old) (known_by W.contents writer.new)) }
{
    let mut each = true;
    for number in 0..u64::MAX {
        let told = tell_line(wait, alloc, session, reader, writer, number + 1, echo)?;
        let Some(line) = told else {
            return Ok(each);
        };
        if ends_script(line) {
            return Ok(each);
        }
        each = is_each(each, line);
    }
    Err(Fault::Read)
}
