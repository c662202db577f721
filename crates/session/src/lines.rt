//! What is told of a line of a script.
ghost use Rattle.std.specs.Prelude.{◌≡◌, true, false, IfOk, [], string_bytes};
ghost use Rattle.session.specs.Telling.{LineSays, miscounted_text, operands_of_verb, unknown_text, wants_text};
ghost use Rattle.session.specs.Turns.{HasTried, is_nowhere};
ghost use Rattle.session.specs.Undoing.{LineIsDone};

use crate::help::help;
use crate::reading::{Goal, Line};
use crate::session::Session;
use crate::tables::table;
use crate::texts::{line_of, list};
use crate::turns::turns;
use crate::verbs::{Verb, word};
use back::OfProgram;
use instructions::{Predictor, Program};
use std::alloc::{AllocError, Global};
use std::sync::Wait;

fn operands(verb: Verb) -> &'static str
    ensures { result.now ≡ operands_of_verb verb }
{
    match verb {
        Verb::Turn => "no operand, or a pc",
        Verb::Refresh => "no operand, or a station",
        Verb::Step => "a number of instructions",
        Verb::Until => "a pc, blocked, misprediction or stale",
        Verb::Claim | Verb::Finish => "a unit, A to Z or AA to BL, and a station",
        Verb::Look | Verb::Info | Verb::Station => "a station",
        Verb::Operand | Verb::Link => "a station and a source, 1 or 2",
        Verb::Creator => "a register, as $t0, $8 or 8",
        Verb::Meet => "two of front, back and units",
        _ => "no operand",
    }
}

fn unknown(alloc: Global, number: u64) -> Result<String, AllocError>
    ensures { IfOk result (λ text. string_bytes text ≡ unknown_text number) }
{
    format!(in alloc; "line {number}: unknown word; help lists the commands\n")
}

fn miscounted(alloc: Global, number: u64) -> Result<String, AllocError>
    ensures { IfOk result (λ text. string_bytes text ≡ miscounted_text number) }
{
    format!(in alloc; "line {number}: a count is at most 1000\n")
}

fn wants(alloc: Global, number: u64, verb: Verb) -> Result<String, AllocError>
    ensures { IfOk result (λ text. string_bytes text ≡ wants_text number verb) }
{
    let (word, operands) = (word(verb), operands(verb));
    format!(in alloc; "line {number}: {word} takes {operands}\n")
}

// No instruction is at the pc of a goal.
fn is_nowhere(program: &Program, goal: Goal) -> bool
    ensures { result ≡ is_nowhere program.now goal }
{
    match goal {
        Goal::Next(pc) => program.fetch(pc).is_none(),
        _ => false,
    }
}

// Turns up to a goal, where an instruction is at its pc.
fn turns_to<P: Predictor + Drop, J: OfProgram, R: Wait>(
    wait: &R,
    alloc: Global,
    session: &mut Session<'_, P, J>,
    number: u64,
    goal: Goal,
) -> Result<String, AllocError>
    ensures nowhere { IfOk result (λ text. is_nowhere session.old.core.program goal ≡ true
        → session.new ≡ session.old) }
    ensures turns { IfOk result (λ text. is_nowhere session.old.core.program goal ≡ false
        → HasTried number session.old session.new [] (string_bytes text)) }
{
    if is_nowhere(session.program(), goal) {
        return format!(in alloc; "line {number}: no instruction is at this pc\n");
    }
    turns(wait, alloc, session, number, goal)
}

// Does what the line of this number asks for, and gives the text for it. A line without a command has an empty text, and
// so has one that ends the script. An undo stands apart.
fn said<P: Predictor + Drop, J: OfProgram, R: Wait>(
    wait: &R,
    alloc: Global,
    session: &mut Session<'_, P, J>,
    number: u64,
    line: Line,
) -> Result<String, AllocError>
    ensures { IfOk result (λ text.
        LineSays session.old session.new number line (string_bytes text)) }
{
    match line {
        Line::Nothing | Line::Undo | Line::Quit => Ok(String::new(alloc)),
        Line::Unknown => unknown(alloc, number),
        Line::Miscounted => miscounted(alloc, number),
        Line::Wants(verb) => wants(alloc, number, verb),
        Line::Asks(command) => {
            let reply = session.answer(wait, alloc, command);
            line_of(alloc, session.program(), number, &reply)
        }
        Line::Table => table(wait, alloc, session, number),
        Line::Queue => session.queue(alloc),
        Line::Turns(goal) => turns_to(wait, alloc, session, number, goal),
        Line::Help => help(alloc),
        Line::List => list(alloc, session.program()),
    }
}

/// Does what the line of this number asks for, but for an undo, notes it, and gives the text for it.
pub fn told<P: Predictor + Drop, J: OfProgram, R: Wait>(
    wait: &R,
    alloc: Global,
    session: &mut Session<'_, P, J>,
    number: u64,
    line: Line,
) -> Result<String, AllocError>
    ensures { IfOk result (λ text.
        LineIsDone session.old session.new number line (string_bytes text)) }
{
    let text = said(wait, alloc, session, number, line)?;
    session.note(line)?;
    Ok(text)
}
