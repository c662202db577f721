//! Turns up to a goal, in the order of the unit on one thread.
ghost use Rattle.std.specs.Prelude.{IfOk, OnOk, [], string_bytes};
ghost use Rattle.session.specs.Turns.{HasTried, IsTried};

use crate::commands::Command;
use crate::events::{Event, shows};
use crate::reading::Goal;
use crate::replies::Reply;
use crate::session::Session;
use crate::texts::line_of;
use crate::units::Claimed;
use back::{Commit, OfProgram, Refresh};
use front::{Recovery, Turn};
use instructions::Predictor;
use std::alloc::{AllocError, Global};
use std::sync::Wait;

/// The most turns that one line takes.
const MOST_TURNS: u32 = 1_000_000;

/// The result of a command of a turn.
#[derive(Clone, Copy)]
enum Progress {
    /// Something was done.
    Moved,
    /// An instruction has retired.
    Retired,
    /// The answer is the one that turns are taken up to.
    Met,
    /// Nothing was done.
    Over,
}

// The result of a command, by its answer.
fn progress_by(sought: Option<Event>, reply: &Reply) -> Progress {
    match (sought, reply) {
        (Some(event), reply) if shows(event, reply) => Progress::Met,
        (_, Reply::Commit(Commit::Retired { .. }, _)) => Progress::Retired,
        (_, Reply::Turn(Turn::Let { .. }, _)) => Progress::Moved,
        (_, Reply::Recovery(Recovery::Mended { .. })) => Progress::Moved,
        (_, Reply::Claim(Claimed::Job(_), _)) => Progress::Moved,
        (_, Reply::Finish(_)) => Progress::Moved,
        (_, Reply::Refresh(refreshed)) if matches!(refreshed.answer, Refresh::Loaded { .. }) =>
            Progress::Moved,
        (_, Reply::Commit(Commit::Half { .. }, _)) => Progress::Moved,
        _ => Progress::Over,
    }
}

fn is_over(progress: Progress) -> bool {
    matches!(progress, Progress::Over)
}

// Nothing is told of a command that did nothing, but for a commit, which is tried last.
fn is_quiet(progress: Progress, command: Command) -> bool {
    is_over(progress) && !matches!(command, Command::Commit)
}

// Answers a command, and tells the answer unless nothing was done.
fn tried<P: Predictor + Drop, J: OfProgram, R: Wait>(
    wait: &R,
    alloc: Global,
    session: &mut Session<'_, P, J>,
    number: u64,
    sought: Option<Event>,
    command: Command,
    out: &mut String,
) -> Result<Progress, AllocError>
    ensures { OnOk result (IsTried number session.old session.new command
        (string_bytes out.old) (string_bytes out.new)) }
{
    let reply = session.answer(wait, alloc, command);
    let progress = progress_by(sought, &reply);
    if is_quiet(progress, command) {
        return Ok(progress);
    }
    let line = line_of(alloc, session.program(), number, &reply)?;
    out.push_str(line.as_str())?;
    Ok(progress)
}

// Tries commands up to the first that does something or is answered as sought.
fn go<P: Predictor + Drop, J: OfProgram, R: Wait>(
    wait: &R,
    alloc: Global,
    session: &mut Session<'_, P, J>,
    number: u64,
    sought: Option<Event>,
    commands: &[Command],
    out: &mut String,
) -> Result<Progress, AllocError>
    ensures { OnOk result (HasTried number session.old session.new
        (string_bytes out.old) (string_bytes out.new)) }
{
    for at in 0..commands.len() {
        let progress = tried(wait, alloc, session, number, sought, commands[at], out)?;
        if !is_over(progress) {
            return Ok(progress);
        }
    }
    Ok(Progress::Over)
}

// The oldest tenant's station, by what is told of the ring; the first one where nobody is live.
fn oldest_in(reply: &Reply) -> usize {
    match reply {
        Reply::Ring(head, _) => head.station.unwrap_or(0),
        _ => 0,
    }
}

// Takes a turn: asks for the oldest tenant, and goes by the order that follows from it.
fn advance<P: Predictor + Drop, J: OfProgram, R: Wait>(
    wait: &R,
    alloc: Global,
    session: &mut Session<'_, P, J>,
    number: u64,
    sought: Option<Event>,
    out: &mut String,
) -> Result<Progress, AllocError>
    ensures { OnOk result (HasTried number session.old session.new
        (string_bytes out.old) (string_bytes out.new)) }
{
    let reply = session.answer(wait, alloc, Command::Ring);
    let order = session.order(alloc, oldest_in(&reply))?;
    go(wait, alloc, session, number, sought, order.as_slice(), out)
}

// The goal is met, where this number of instructions have retired in the turns.
fn is_met<P: Predictor + Drop, J: OfProgram>(
    session: &Session<'_, P, J>,
    goal: Goal,
    retired: u32,
) -> bool {
    match goal {
        Goal::Retired(count) => count <= retired,
        Goal::Next(pc) => session.next_retired() == pc,
        Goal::Event(_) => false,
    }
}

// The event that the turn after this number of turns may end with. The first turn ends with no blocked load: it may
// have been blocked since before.
fn sought_in(goal: Goal, taken: u32) -> Option<Event> {
    match goal {
        Goal::Event(Event::Blocked) if taken == 0 => None,
        Goal::Event(event) => Some(event),
        _ => None,
    }
}

/// Takes turns up to a goal, or as long as there is something to do, and gives what is told of them.
pub(crate) fn turns<P: Predictor + Drop, J: OfProgram, R: Wait>(
    wait: &R,
    alloc: Global,
    session: &mut Session<'_, P, J>,
    number: u64,
    goal: Goal,
) -> Result<String, AllocError>
    ensures { IfOk result (λ text. HasTried number session.old session.new [] (string_bytes text)) }
{
    let mut out = String::new(alloc);
    let mut retired = 0;
    for taken in 0..MOST_TURNS {
        if is_met(session, goal, retired) {
            return Ok(out);
        }
        let sought = sought_in(goal, taken);
        match advance(wait, alloc, session, number, sought, &mut out)? {
            Progress::Moved => {}
            Progress::Retired => retired += 1,
            Progress::Met => return Ok(out),
            Progress::Over => return Ok(out),
        }
    }
    Ok(out)
}
