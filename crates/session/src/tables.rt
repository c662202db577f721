//! Tables: all stations, and who creates which register.
ghost use Rattle.std.specs.Prelude.{◌≡◌, ◌≤◌, IfOk, OnOk, string_bytes};
ghost use Rattle.session.specs.Turns.{IsTable, IsTried, row_command};

use crate::commands::Command;
use crate::replies::{Reply, is_free};
use crate::session::Session;
use crate::texts::line_of;
use back::OfProgram;
use front::Made;
use instructions::Predictor;
use std::alloc::{AllocError, Global};
use std::sync::Wait;

// A station that is free has no row, nor has a register that nobody creates.
fn has_row(reply: &Reply) -> bool {
    match reply {
        Reply::Creator(Made::Base(_)) => false,
        Reply::Station(row) => !is_free(row.seen.state),
        _ => true,
    }
}

// Adds the row of a command, if it has one: the command, and the line of the answer.
fn push_row<P: Predictor + Drop, J: OfProgram, R: Wait>(
    wait: &R,
    alloc: Global,
    session: &mut Session<'_, P, J>,
    number: u64,
    command: Command,
    out: &mut String,
) -> Result<(), AllocError>
    ensures { OnOk result (IsTried number session.old session.new command
        (string_bytes out.old) (string_bytes out.new)) }
{
    let reply = session.answer(wait, alloc, command);
    if !has_row(&reply) {
        return Ok(());
    }
    let name = format!(in alloc; "{command}: ")?;
    let line = line_of(alloc, session.program(), number, &reply)?;
    out.push_str(name.as_str())?;
    out.push_str(line.as_str())
}

// The command of a row: of the stations, then of the registers, and of the ring last.
fn row_command(ring: usize, row: usize) -> Command
    requires { ring ≤ 32 }
    ensures { result ≡ row_command ring row }
{
    if row < ring {
        Command::Station(row as u32)
    } else if row < ring + 34 {
        Command::Creator((row - ring) as u32)
    } else {
        Command::Ring
    }
}

/// The table of a session: a row for each station that is not free, who creates which register, and the ring. Each row
/// is the answer to its command.
pub(crate) fn table<P: Predictor + Drop, J: OfProgram, R: Wait>(
    wait: &R,
    alloc: Global,
    session: &mut Session<'_, P, J>,
    number: u64,
) -> Result<String, AllocError>
    ensures { IfOk result (λ text. IsTable number session.old session.new (string_bytes text)) }
{
    let mut out = String::new(alloc);
    let ring = session.ring();
    for row in 0..ring + 35 {
        push_row(
            wait,
            alloc,
            session,
            number,
            row_command(ring, row),
            &mut out,
        )?;
    }
    Ok(out)
}
