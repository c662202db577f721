//! A session that is driven by a seed.
ghost use Rattle.std.specs.Prelude.{◌≡◌, ◌≢◌, ◌<◌, ◌≤◌, ◌+◌, ◌-◌, ◌^◌, ◌⊎◌, IfErr, IfNone, IfOk, IsSome, OnOk, []};
ghost use Rattle.counted_io.specs.Counted.{failures_of, known_by};
ghost use Rattle.session.specs.Plays.{ArePlayed, HasPlayed, HasPlayedPart, IsPlayed, IsWrittenBehind};
ghost use Rattle.session.specs.Scripts.{write_failures};
ghost use Rattle.session.specs.Sessions.{MayHaveLooked};

use crate::commands::Command;
use crate::reading::line_in;
use crate::script::written;
use crate::session::Session;
use back::OfProgram;
use counted_io::{Counted, Fault, write_whole};
use instructions::Predictor;
use rand_core::utils::NextWord;
use rand_pcg::Pcg32;
use std::alloc::{AllocError, Global};
use std::io::Write;
use std::sync::Wait;

// The command that a number names, modulo how many there are; a commit where there is none.
fn named(choices: &[Command], choice: u32) -> Command {
    if choices.is_empty() {
        return Command::Commit;
    }
    choices[choice as usize % choices.len()]
}

// The line of the command that the seed names of those that make sense; none where the run has ended.
fn chosen<P: Predictor + Drop, J: OfProgram>(
    alloc: Global,
    session: &mut Session<'_, P, J>,
    words: &mut Pcg32,
) -> Result<Option<String>, AllocError>
    ensures looks { OnOk result (MayHaveLooked session.old session.new) }
    ensures ended { IfOk result (λ chosen. IfNone chosen (IsSome session.new.commits.ended)) }
{
    let Some(choices) = session.choices(alloc)? else {
        return Ok(None);
    };
    let command = named(choices.as_slice(), words.next_word());
    let line = format!(in alloc; "{command}")?;
    Ok(Some(line))
}

// Adds what is written for a line of this number.
fn push_line<P: Predictor + Copy + Drop, J: OfProgram, R: Wait>(
    wait: &R,
    alloc: Global,
    session: &mut Session<'_, P, J>,
    number: u64,
    line: &[u8],
    out: &mut Vec<u8>,
) -> Result<(), AllocError>
    ensures { OnOk result (IsWrittenBehind session.old session.new number line.now
        out.old.items out.new.items) }
{
    let text = written(wait, alloc, session, number, line, line_in(line), true)?;
    out.extend_from_slice(text.as_slice())
}

// Adds what is written for n chosen commands, or for fewer where the run ends, and gives how many there were.
fn push_lines<P: Predictor + Copy + Drop, J: OfProgram, R: Wait>(
    wait: &R,
    alloc: Global,
    session: &mut Session<'_, P, J>,
    words: &mut Pcg32,
    steps: u64,
    out: &mut Vec<u8>,
) -> Result<u64, AllocError>
    requires steps { steps < 2 ^ 32 }
    requires empty { out.old.items ≡ [] }
    ensures played { IfOk result (ArePlayed session.old session.new out.new.items) }
    ensures few { IfOk result (λ count. count ≤ steps) }
    ensures all { IfOk result (λ count.
        (count ≡ steps) ⊎ IsSome session.new.commits.ended) }
{
    for number in 0..steps {
        match chosen(alloc, session, words)? {
            Some(line) => {
                let bytes = line.as_str().as_bytes();
                push_line(wait, alloc, session, number + 1, bytes, out)?;
            }
            None => return Ok(number),
        }
    }
    Ok(steps)
}

/// Answers n commands that a seed chooses of those that make sense, each after the command itself, or fewer where
/// the run has ended; and then a table and a report. Gives the transcript.
pub(crate) fn play<P: Predictor + Copy + Drop, J: OfProgram, R: Wait>(
    wait: &R,
    alloc: Global,
    session: &mut Session<'_, P, J>,
    seed: u64,
    steps: u64,
) -> Result<Vec<u8>, AllocError>
    requires { steps < 2 ^ 32 }
    ensures { IfOk result (λ text. HasPlayed steps session.old session.new text.items) }
{
    let mut out = Vec::new(alloc);
    let mut words = Pcg32::new(seed, 0);
    let count = push_lines(wait, alloc, session, &mut words, steps, &mut out)?;
    push_line(wait, alloc, session, count + 1, b"table", &mut out)?;
    push_line(wait, alloc, session, count + 2, b"report", &mut out)?;
    Ok(out)
}

/// Writes the transcript of a session that a seed drives.
pub fn write_play<P: Predictor + Copy + Drop, J: OfProgram, R: Wait, W: Write>(
    wait: &R,
    alloc: Global,
    session: &mut Session<'_, P, J>,
    seed: u64,
    steps: u64,
    writer: &mut Counted<W>,
) -> Result<(), Fault>
    requires steps { steps < 2 ^ 32 }
    requires room { failures_of writer.old < 2 ^ 64 - 1 }
    ensures ok { OnOk result (IsPlayed steps session.old session.new
        (known_by W.contents writer.old) (known_by W.contents writer.new)) }
    ensures quiet { OnOk result (failures_of writer.new ≡ failures_of writer.old) }
    ensures write { IfErr result (λ fault.
        failures_of writer.new ≡ failures_of writer.old + write_failures fault) }
    ensures silent { IfErr result (λ fault. fault ≢ Fault.Write → writer.new ≡ writer.old) }
    ensures broken { IfErr result (λ fault. fault ≡ Fault.Write →
        HasPlayedPart steps session.old
        (known_by W.contents writer.old) (known_by W.contents writer.new)) }
{
    let text = play(wait, alloc, session, seed, steps)?;
    write_whole(writer, text.as_slice())?;
    Ok(())
}
