//! A unit that is driven by commands.
ghost use Rattle.std.specs.Prelude.{◌≡◌, ◌≢◌, ◌+◌, ◌-◌, ◌^◌, ◌<◌, IfSome, IfOk, IfErr, OnOk, Ok, Some, None};
ghost use Rattle.isa.specs.Listing.{listing};
ghost use Rattle.counted_io.specs.Counted.{failures_of, known_by};
ghost use Rattle.session.specs.Scripts.{write_failures};
ghost use Rattle.drive.specs.ByHand.{AreAnswered, AreSomeAnswered, IsAnswerBroken, script_status, most_chosen};
ghost use Rattle.drive.specs.Replies.{HasAnswered, IsLeftByHand, IsUndrivenBy, listing_from};
ghost use Rattle.command_line.specs.Predictors.{IsChosen};
ghost use Rattle.command_line.specs.Replies.{IfRefused};
ghost use Rattle.command_line.specs.Exits.{IsOfOneThread, refused};
ghost use Rattle.command_line.specs.declared.exit.Line.TheVariants.{Nothing};

use answers::MOST_TAKEN;
use command_line::{ByHand, Chosen, Exit, Line, Refusal, choose, refused};
use counted_io::{Counted, Fault, read_up_to, write_whole};
use instructions::Program;
use isa::{FaultKind, fault_text, parse};
use session::{Session, write_play};
use snapshots::OfProgram;
use std::alloc::Global;
use std::io::{BufRead, Read, Write};
use std::marker::Brand;
use std::sync::Wait;

/// The most commands that a seed chooses.
const MOST_STEPS: u64 = 1_000_000;

/// Reads the listing, drives its unit by the commands of the script, one a line, or by those that a
/// seed chooses, and writes what is answered. At the end of the script the status is 0 where each line
/// was a command, and else 1; it is 2 for a listing with a fault, whose line is written in place of
/// answers. There is no reader where the file did not open. A failed read or write is not tried again.
pub fn go_by_hand<T: Wait, R: Read + Drop, I: BufRead, W: Write>(
    wait: &T,
    alloc: Global,
    hand: &ByHand<'_>,
    reader: Option<Counted<R>>,
    script: &mut I,
    writer: &mut Counted<W>,
) -> Exit
    requires reader_room { IfSome reader (λ r. failures_of r < 2 ^ 64 - 1) }
    requires writer_room { failures_of writer.old < 2 ^ 64 - 1 }
    // Without a reader nothing is driven.
    ensures open { reader ≡ None → result ≡ refused Refusal.Open }
    // What was written whole answers the listing and the script.
    ensures answer { result.line ≡ Nothing → HasAnswered W.contents hand.now
        (listing_from R.remaining reader) (I.remaining script.old)
        writer.old writer.new result.status }
    ensures line { IsOfOneThread result.line }
    // A refusal has a status of its own.
    ensures refused { IfRefused result.line (λ refusal. result ≡ refused refusal) }
    // The writer is blamed for one failed call, and only then; else whole answers went out, or none.
    ensures left { IfRefused result.line (IsLeftByHand R.remaining W.contents hand.now
        reader (I.remaining script.old) writer.old writer.new) }
{
    let Some(mut reader) = reader else {
        return refused(Refusal::Open);
    };
    match driven(wait, alloc, hand, &mut reader, script, writer) {
        Ok(status) => Exit {
            status,
            line: Line::Nothing,
        },
        Err(refusal) => refused(refusal),
    }
}

// The status, once all is answered.
fn driven<T: Wait, R: Read, I: BufRead, W: Write>(
    wait: &T,
    alloc: Global,
    hand: &ByHand<'_>,
    reader: &mut Counted<R>,
    script: &mut I,
    writer: &mut Counted<W>,
) -> Result<u8, Refusal>
    requires reader_room { failures_of reader.old < 2 ^ 64 - 1 }
    requires writer_room { failures_of writer.old < 2 ^ 64 - 1 }
    ensures ok { IfOk result (HasAnswered W.contents hand.now
        (listing_from R.remaining (Some reader.old)) (I.remaining script.old)
        writer.old writer.new) }
    ensures err { IfErr result (IsUndrivenBy W.contents hand.now
        (listing_from R.remaining (Some reader.old)) (I.remaining script.old)
        writer.old writer.new) }
{
    let listing = read_up_to(alloc, reader, MOST_TAKEN)?;
    answered(wait, alloc, hand, listing.as_slice(), script, writer)
}

// Answers the commands for the bytes of a listing.
fn answered<T: Wait, I: BufRead, W: Write>(
    wait: &T,
    alloc: Global,
    hand: &ByHand<'_>,
    bytes: &[u8],
    script: &mut I,
    writer: &mut Counted<W>,
) -> Result<u8, Refusal>
    requires writer_room { failures_of writer.old < 2 ^ 64 - 1 }
    ensures ok { IfOk result (HasAnswered W.contents hand.now
        (Some (listing bytes.now)) (I.remaining script.old) writer.old writer.new) }
    ensures err { IfErr result (IsUndrivenBy W.contents hand.now
        (Some (listing bytes.now)) (I.remaining script.old) writer.old writer.new) }
{
    match parse(alloc, bytes) {
        Ok(program) => {
            let predictor = choose(hand.predictor);
            drive_by::<Brand, T, I, W>(wait, alloc, hand, &program, predictor, script, writer)
        },
        Err(fault) if fault.kind == FaultKind::Memory => Err(Refusal::Memory),
        Err(fault) => {
            let text = fault_text(alloc, &fault)?;
            write_whole(writer, text.as_str().as_bytes())?;
            Ok(2)
        },
    }
}

// The status behind a script, by whether each of its lines was a command.
fn script_status(each: bool) -> u8
    ensures { result ≡ script_status each }
{
    if each { 0 } else { 1 }
}

// Answers the commands for a program, with the predictor that is asked for, and gives the status.
fn drive_by<J: OfProgram, T: Wait, I: BufRead, W: Write>(
    wait: &T,
    alloc: Global,
    hand: &ByHand<'_>,
    program: &Program,
    predictor: Chosen,
    script: &mut I,
    writer: &mut Counted<W>,
) -> Result<u8, Refusal>
    requires named { program.now ≡ J.program }
    requires predictor { IsChosen hand.now.predictor predictor }
    requires writer_room { failures_of writer.old < 2 ^ 64 - 1 }
    ensures ok { IfOk result (HasAnswered W.contents hand.now
        (Some (Ok program.now)) (I.remaining script.old) writer.old writer.new) }
    ensures err { IfErr result (IsUndrivenBy W.contents hand.now
        (Some (Ok program.now)) (I.remaining script.old) writer.old writer.new) }
{
    let mut session = Session::<Chosen, J>::new(alloc, program, &hand.config, predictor)?;
    let told = tell(wait, alloc, hand, &mut session, script, writer);
    session.end(wait);
    match told {
        Ok(each) => Ok(script_status(each)),
        Err(fault) => Err(Refusal::from(fault)),
    }
}

// Answers the script, or the commands that the seed chooses, and gives whether each line of it was a command.
fn tell<J: OfProgram, T: Wait, I: BufRead, W: Write>(
    wait: &T,
    alloc: Global,
    hand: &ByHand<'_>,
    session: &mut Session<'_, Chosen, J>,
    script: &mut I,
    writer: &mut Counted<W>,
) -> Result<bool, Fault>
    requires { failures_of writer.old < 2 ^ 64 - 1 }
    ensures ok { IfOk result (AreAnswered hand.now.seed (most_chosen hand.now) hand.now.echo
        session.old session.new (I.remaining script.old) (known_by W.contents writer.old)
        (known_by W.contents writer.new)) }
    ensures quiet { OnOk result (failures_of writer.new ≡ failures_of writer.old) }
    ensures write { IfErr result (λ fault.
        failures_of writer.new ≡ failures_of writer.old + write_failures fault) }
    ensures told { IfErr result (λ fault. fault ≢ Fault.Write →
        AreSomeAnswered hand.now.seed hand.now.echo session.old
        (I.remaining script.old) (known_by W.contents writer.old)
        (known_by W.contents writer.new)) }
    ensures broken { IfErr result (λ fault. fault ≡ Fault.Write →
        IsAnswerBroken hand.now.seed (most_chosen hand.now) hand.now.echo
        session.old (I.remaining script.old) (known_by W.contents writer.old)
        (known_by W.contents writer.new)) }
{
    match hand.seed {
        None => session::drive(wait, alloc, session, script, writer, hand.echo),
        Some(seed) => {
            let steps = hand.steps.min(MOST_STEPS);
            write_play(wait, alloc, session, seed, steps, writer)?;
            Ok(true)
        }
    }
}
