//! The commands that make one call.
ghost use Rattle.std.specs.Prelude.{◌≡◌};
ghost use Rattle.session.specs.Commands.{command_of, refresh_of, turn_of};
ghost use Rattle.session.specs.Tokens.{texts_of};

use crate::names::{Party, UnitName};
use crate::operands::{
    bare, only_number, only_pc, only_register, station_and_source, two_parties, unit_and_number,
};
use crate::tokens::Tokens;
use crate::verbs::Verb;
use isa::Hexadecimal;
use station::Source;
use std::fmt;

/// A call to make. A unit is named by its place, from 0 on.
#[derive(Clone, Copy)]
pub enum Command {
    /// With a guess in place of the predictor's, where one is given.
    Turn(Option<u32>),
    Recover,
    Claim(usize, u32),
    Finish(usize, u32),
    Refresh,
    RefreshAt(u32),
    Commit,
    Show,
    Take,
    Learn,
    Look(u32),
    Creator(u32),
    Touched,
    Info(u32),
    Operand(u32, Source),
    Link(u32, Source),
    Station(u32),
    Ring,
    Rest,
    Meet(Party, Party),
    Report,
    Renew,
}

impl fmt::Display for Command {
    // A command as a script has it.
    fn fmt<W: fmt::Write>(&self, f: &mut fmt::Formatter<W>) -> fmt::Result {
        match self {
            Command::Turn(None) => f.write_str("turn"),
            Command::Turn(Some(next)) => write!(f, "turn {}", Hexadecimal(*next)),
            Command::Recover => f.write_str("recover"),
            Command::Claim(unit, station) => write!(f, "claim {} {station}", UnitName(*unit)),
            Command::Finish(unit, station) => write!(f, "finish {} {station}", UnitName(*unit)),
            Command::Refresh => f.write_str("refresh"),
            Command::RefreshAt(station) => write!(f, "refresh {station}"),
            Command::Station(station) => write!(f, "station {station}"),
            Command::Ring => f.write_str("ring"),
            Command::Creator(register) => write!(f, "creator {register}"),
            // no other is written
            _ => f.write_str("commit"),
        }
    }
}

// A turn, and its guess where one is given.
fn turn_in(tokens: &Tokens<'_>) -> Option<Command>
    ensures { result ≡ turn_of (texts_of tokens.now) }
{
    if tokens.first.is_empty() {
        Some(Command::Turn(None))
    } else {
        let next = only_pc(tokens)?;
        Some(Command::Turn(Some(next)))
    }
}

// A refresh, of one station where that is given.
fn refresh_in(tokens: &Tokens<'_>) -> Option<Command>
    ensures { result ≡ refresh_of (texts_of tokens.now) }
{
    if tokens.first.is_empty() {
        Some(Command::Refresh)
    } else {
        Some(Command::RefreshAt(only_number(tokens)?))
    }
}

/// The command of a word and its operands. A table, a queue and turns are none: each of them is many. Help, a list and
/// the end of a script make no call.
pub(crate) fn command_in(verb: Verb, tokens: &Tokens<'_>) -> Option<Command>
    ensures { result ≡ command_of verb (texts_of tokens.now) }
{
    match verb {
        Verb::Turn => turn_in(tokens),
        Verb::Recover => bare(tokens, Command::Recover),
        Verb::Claim => {
            let (unit, station) = unit_and_number(tokens)?;
            Some(Command::Claim(unit, station))
        }
        Verb::Finish => {
            let (unit, station) = unit_and_number(tokens)?;
            Some(Command::Finish(unit, station))
        }
        Verb::Refresh => refresh_in(tokens),
        Verb::Commit => bare(tokens, Command::Commit),
        Verb::Show => bare(tokens, Command::Show),
        Verb::Take => bare(tokens, Command::Take),
        Verb::Learn => bare(tokens, Command::Learn),
        Verb::Look => Some(Command::Look(only_number(tokens)?)),
        Verb::Creator => Some(Command::Creator(only_register(tokens)?)),
        Verb::Touched => bare(tokens, Command::Touched),
        Verb::Info => Some(Command::Info(only_number(tokens)?)),
        Verb::Operand => {
            let (station, k) = station_and_source(tokens)?;
            Some(Command::Operand(station, k))
        }
        Verb::Link => {
            let (station, k) = station_and_source(tokens)?;
            Some(Command::Link(station, k))
        }
        Verb::Station => Some(Command::Station(only_number(tokens)?)),
        Verb::Ring => bare(tokens, Command::Ring),
        Verb::Rest => bare(tokens, Command::Rest),
        Verb::Meet => {
            let (one, other) = two_parties(tokens)?;
            Some(Command::Meet(one, other))
        }
        Verb::Report => bare(tokens, Command::Report),
        Verb::Renew => bare(tokens, Command::Renew),
        Verb::Table | Verb::Queue | Verb::Step | Verb::Until => None,
        Verb::Undo | Verb::Help | Verb::List | Verb::Quit => None,
    }
}
