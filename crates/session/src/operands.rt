//! The operands of commands.
ghost use Rattle.std.specs.Prelude.{◌≡◌};
ghost use Rattle.session.specs.Commands.{has_one, has_two, whole_number, only_event, only_number, only_pc, only_register, source_of, station_and_source, two_parties, unit_and_number, without_operands};
ghost use Rattle.session.specs.Tokens.{texts_of};

use crate::events::{Event, event_in};
use crate::names::{Party, party_in, register_in, unit_in};
use crate::tokens::Tokens;
use lexical::decimal_in;
use station::Source;

fn has_one(tokens: &Tokens<'_>) -> bool
    ensures { result ≡ has_one (texts_of tokens.now) }
{
    !tokens.first.is_empty() && tokens.second.is_empty()
}

fn has_two(tokens: &Tokens<'_>) -> bool
    ensures { result ≡ has_two (texts_of tokens.now) }
{
    !tokens.second.is_empty() && tokens.rest.is_empty()
}

/// What a word without operands asks for.
pub(crate) fn bare<T: Copy>(tokens: &Tokens<'_>, asked: T) -> Option<T>
    ensures { result ≡ without_operands (texts_of tokens.now) asked }
{
    if tokens.first.is_empty() {
        Some(asked)
    } else {
        None
    }
}

fn number_in(text: &[u8]) -> Option<u32>
    ensures { result ≡ whole_number text.now }
{
    decimal_in(text, 0xffff_ffff)
}

/// The number that is the only operand.
pub(crate) fn only_number(tokens: &Tokens<'_>) -> Option<u32>
    ensures { result ≡ only_number (texts_of tokens.now) }
{
    if has_one(tokens) {
        number_in(tokens.first)
    } else {
        None
    }
}

/// The register that is the only operand.
pub(crate) fn only_register(tokens: &Tokens<'_>) -> Option<u32>
    ensures { result ≡ only_register (texts_of tokens.now) }
{
    if has_one(tokens) {
        register_in(tokens.first)
    } else {
        None
    }
}

/// The pc that is the only operand.
pub(crate) fn only_pc(tokens: &Tokens<'_>) -> Option<u32>
    ensures { result ≡ only_pc (texts_of tokens.now) }
{
    if has_one(tokens) {
        lexical::number_in(tokens.first, 0, 0xffff_ffff)
    } else {
        None
    }
}

/// The event that is the only operand.
pub(crate) fn only_event(tokens: &Tokens<'_>) -> Option<Event>
    ensures { result ≡ only_event (texts_of tokens.now) }
{
    if has_one(tokens) {
        event_in(tokens.first)
    } else {
        None
    }
}

/// A unit and the number of a station.
pub(crate) fn unit_and_number(tokens: &Tokens<'_>) -> Option<(usize, u32)>
    ensures { result ≡ unit_and_number (texts_of tokens.now) }
{
    if !has_two(tokens) {
        return None;
    }
    let unit = unit_in(tokens.first)?;
    let number = number_in(tokens.second)?;
    Some((unit, number))
}

// The source of this number, 1 or 2.
fn source_in(text: &[u8]) -> Option<Source>
    ensures { result ≡ source_of text.now }
{
    match number_in(text)? {
        1 => Some(Source::First),
        2 => Some(Source::Second),
        _ => None,
    }
}

/// The number of a station, and one of its two sources.
pub(crate) fn station_and_source(tokens: &Tokens<'_>) -> Option<(u32, Source)>
    ensures { result ≡ station_and_source (texts_of tokens.now) }
{
    if !has_two(tokens) {
        return None;
    }
    let station = number_in(tokens.first)?;
    let k = source_in(tokens.second)?;
    Some((station, k))
}

/// Two that meet.
pub(crate) fn two_parties(tokens: &Tokens<'_>) -> Option<(Party, Party)>
    ensures { result ≡ two_parties (texts_of tokens.now) }
{
    if !has_two(tokens) {
        return None;
    }
    let one = party_in(tokens.first)?;
    let other = party_in(tokens.second)?;
    Some((one, other))
}
