//! Commands that are taken back, and lines that are done several times.
ghost use Rattle.std.specs.Prelude.{◌≡◌, IfOk, OnOk, string_bytes};
ghost use Rattle.session.specs.Texts.{HasAddedText};
ghost use Rattle.session.specs.Undoing.{ComesTo, HasRun, LineComesTo, UndoSays, nothing_text};

use crate::lines::told;
use crate::reading::{Line, is_undo};
use crate::session::Session;
use back::OfProgram;
use instructions::Predictor;
use std::alloc::{AllocError, Global};
use std::sync::Wait;

// Does lines once more, and tells nothing of them.
fn run<P: Predictor + Drop, J: OfProgram, R: Wait>(
    wait: &R,
    alloc: Global,
    session: &mut Session<'_, P, J>,
    lines: &[Line],
) -> Result<(), AllocError>
    ensures { OnOk result (HasRun lines.now session.old session.new) }
{
    for at in 0..lines.len() {
        told(wait, alloc, session, 0, lines[at])?;
    }
    Ok(())
}

// The text where there is nothing to take back.
fn nothing(alloc: Global, number: u64) -> Result<String, AllocError>
    ensures { IfOk result (λ text. string_bytes text ≡ nothing_text number) }
{
    format!(in alloc; "line {number}: there is nothing to undo\n")
}

// Takes the last command back that may have changed something: the session begins again, and does those before it.
fn undo<P: Predictor + Copy + Drop, J: OfProgram, R: Wait>(
    wait: &R,
    alloc: Global,
    session: &mut Session<'_, P, J>,
    number: u64,
) -> Result<String, AllocError>
    ensures { IfOk result (λ text.
        UndoSays session.old session.new number (string_bytes text)) }
{
    let mut lines = session.take_lines(alloc);
    let Some(_) = lines.pop() else {
        return nothing(alloc, number);
    };
    if session.begin_again(wait, alloc).is_err() {
        return Err(AllocError);
    }
    run(wait, alloc, session, lines.as_slice())?;
    format!(in alloc; "Undone\n")
}

// Does what a line asks for, once.
fn once<P: Predictor + Copy + Drop, J: OfProgram, R: Wait>(
    wait: &R,
    alloc: Global,
    session: &mut Session<'_, P, J>,
    number: u64,
    line: Line,
) -> Result<String, AllocError>
    ensures { IfOk result (λ text.
        LineComesTo session.old session.new number line (string_bytes text)) }
{
    if is_undo(line) {
        undo(wait, alloc, session, number)
    } else {
        told(wait, alloc, session, number, line)
    }
}

/// Does what a line asks for as often as this, and adds what is told of it.
pub(crate) fn push_told<P: Predictor + Copy + Drop, J: OfProgram, R: Wait>(
    wait: &R,
    alloc: Global,
    session: &mut Session<'_, P, J>,
    number: u64,
    line: Line,
    times: u32,
    out: &mut Vec<u8>,
) -> Result<(), AllocError>
    ensures { OnOk result (HasAddedText (ComesTo times session.old session.new number line)
        out.old.items out.new.items) }
{
    for _ in 0..times {
        let text = once(wait, alloc, session, number, line)?;
        out.extend_from_slice(text.as_str().as_bytes())?;
    }
    Ok(())
}
