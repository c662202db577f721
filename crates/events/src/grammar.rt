//! The grammar of a log: one event a line.
ghost use Rattle.std.specs.Prelude.{◌≡◌, Some};
ghost use Rattle.std.specs.Str.{bytes_eq};
ghost use Rattle.events.specs.Lines.{alone, event_in, event_of, event_on, from_of, issued, let_of, perhaps_alone, retire_of, who_and_value, valued_event, valued_of, verb_of, words, words_of};

use crate::event::{Event, Issue};
use crate::unread::Unread;
use crate::words::{code_of, next_word, number, position};

// An event that may state a value.
#[derive(Clone, Copy)]
enum Valued {
    End,
    Execute,
    Read,
    Load,
    Complete,
}

// What the first word of an event says.
#[derive(Clone, Copy)]
enum Verb {
    Let,
    From,
    Begin,
    Valued(Valued),
    Retire,
    Squash,
    Mend,
    Recover,
}

// What `issue` means.
fn issued(issue: Issue) -> Result<Verb, Unread>
    ensures { result ≡ issued issue }
{
    match issue {
        Issue::Ambiguous => Err(Unread::Ambiguous),
        Issue::Dispatch => Ok(Verb::Let),
        Issue::Execute => Ok(Verb::Begin),
    }
}

fn is_word(word: &[u8], text: &str) -> bool
    ensures { result ≡ bytes_eq word.now text.now }
{
    word == text.as_bytes()
}

// What the first word of an event that may state a value says.
fn valued_in(word: &[u8]) -> Option<Valued>
    ensures { result ≡ valued_of word.now }
{
    if is_word(word, "end") || is_word(word, "finish") || is_word(word, "write") {
        Some(Valued::End)
    } else if is_word(word, "writeback") || is_word(word, "broadcast") {
        Some(Valued::End)
    } else if is_word(word, "address") || is_word(word, "execute") {
        Some(Valued::Execute)
    } else if is_word(word, "read") {
        Some(Valued::Read)
    } else if is_word(word, "load") {
        Some(Valued::Load)
    } else if is_word(word, "complete") {
        Some(Valued::Complete)
    } else {
        None
    }
}

fn verb_in(word: &[u8], issue: Issue) -> Result<Verb, Unread>
    ensures { result ≡ verb_of issue word.now }
{
    if let Some(valued) = valued_in(word) {
        Ok(Verb::Valued(valued))
    } else if is_word(word, "let") || is_word(word, "dispatch") {
        Ok(Verb::Let)
    } else if is_word(word, "from") {
        Ok(Verb::From)
    } else if is_word(word, "begin") {
        Ok(Verb::Begin)
    } else if is_word(word, "retire") || is_word(word, "commit") {
        Ok(Verb::Retire)
    } else if is_word(word, "squash") || is_word(word, "flush") {
        Ok(Verb::Squash)
    } else if is_word(word, "mend") {
        Ok(Verb::Mend)
    } else if is_word(word, "recover") {
        Ok(Verb::Recover)
    } else if is_word(word, "issue") {
        issued(issue)
    } else {
        Err(Unread::NoEvent)
    }
}

// The words after the first one: of more than four, these.
#[derive(Clone, Copy)]
enum Rest<'a> {
    None,
    One(&'a [u8]),
    Two(&'a [u8], &'a [u8]),
    Three(&'a [u8], &'a [u8], &'a [u8]),
    More(&'a [u8], &'a [u8], &'a [u8], &'a [u8]),
}

fn rest_in(text: &[u8]) -> Rest<'_>
    ensures { words_of result ≡ words 4 text.now }
{
    let Some((first, text)) = next_word(text) else {
        return Rest::None;
    };
    let Some((second, text)) = next_word(text) else {
        return Rest::One(first);
    };
    let Some((third, text)) = next_word(text) else {
        return Rest::Two(first, second);
    };
    match next_word(text) {
        None => Rest::Three(first, second, third),
        Some((fourth, _)) => Rest::More(first, second, third, fourth),
    }
}

// `PC -> NEXT`, each of which may be left out.
fn let_in(rest: Rest<'_>) -> Result<Event, Unread>
    ensures { result ≡ let_of (words_of rest.entry) }
{
    match rest {
        Rest::None => Ok(Event::Let(None, None)),
        Rest::One(pc) => Ok(Event::Let(Some(number(pc)?), None)),
        Rest::Two(b"->", next) => Ok(Event::Let(None, Some(number(next)?))),
        Rest::Two(_, b"->") => Err(Unread::NoNumber),
        Rest::Three(pc, b"->", next) => Ok(Event::Let(Some(number(pc)?), Some(number(next)?))),
        _ => Err(Unread::More),
    }
}

// `WHO`.
fn alone(rest: Rest<'_>) -> Result<usize, Unread>
    ensures { result ≡ alone (words_of rest.entry) }
{
    match rest {
        Rest::None => Err(Unread::NoNumber),
        Rest::One(who) => position(who),
        _ => Err(Unread::More),
    }
}

// `WHO`, which may be left out.
fn perhaps_alone(rest: Rest<'_>) -> Result<Option<usize>, Unread>
    ensures { result ≡ perhaps_alone (words_of rest.entry) }
{
    match rest {
        Rest::None => Ok(None),
        _ => Ok(Some(alone(rest)?)),
    }
}

// `WHO PRODUCER`.
fn from_in(rest: Rest<'_>) -> Result<Event, Unread>
    ensures { result ≡ from_of (words_of rest.entry) }
{
    match rest {
        Rest::None | Rest::One(_) => Err(Unread::NoNumber),
        Rest::Two(who, producer) => Ok(Event::From(position(who)?, position(producer)?)),
        _ => Err(Unread::More),
    }
}

// `WHO = VALUE`, of which the value may be left out.
fn who_and_value(rest: Rest<'_>) -> Result<(usize, Option<u32>), Unread>
    ensures { result ≡ who_and_value (words_of rest.entry) }
{
    match rest {
        Rest::Two(_, b"=") => Err(Unread::NoNumber),
        Rest::Three(who, b"=", value) => Ok((position(who)?, Some(number(value)?))),
        _ => Ok((alone(rest)?, None)),
    }
}

// `WHO = VALUE`, each of which may be left out.
fn retire_in(rest: Rest<'_>) -> Result<Event, Unread>
    ensures { result ≡ retire_of (words_of rest.entry) }
{
    match rest {
        Rest::None => Ok(Event::Retire(None, None)),
        Rest::Two(b"=", value) => Ok(Event::Retire(None, Some(number(value)?))),
        _ => {
            let (who, value) = who_and_value(rest)?;
            Ok(Event::Retire(Some(who), value))
        }
    }
}

fn valued_event(verb: Valued, who: usize, value: Option<u32>) -> Event
    ensures { result ≡ valued_event verb who value }
{
    match verb {
        Valued::End => Event::End(who, value),
        Valued::Execute => Event::Execute(who, value),
        Valued::Read => Event::Read(who, value),
        Valued::Load => Event::Load(who, value),
        Valued::Complete => Event::Complete(who, value),
    }
}

// The event of a word and those after it.
fn event_by(verb: Verb, rest: Rest<'_>) -> Result<Event, Unread>
    ensures { result ≡ event_of verb (words_of rest.entry) }
{
    match verb {
        Verb::Let => let_in(rest),
        Verb::From => from_in(rest),
        Verb::Begin => Ok(Event::Begin(alone(rest)?)),
        Verb::Valued(verb) => {
            let (who, value) = who_and_value(rest)?;
            Ok(valued_event(verb, who, value))
        }
        Verb::Retire => retire_in(rest),
        Verb::Squash => Ok(Event::Squash(perhaps_alone(rest)?)),
        Verb::Mend => Ok(Event::Mend(alone(rest)?)),
        Verb::Recover => Ok(Event::Recover(alone(rest)?)),
    }
}

// The event of the code of a line; none where that is blank.
fn event_on(code: &[u8], issue: Issue) -> Result<Option<Event>, Unread>
    ensures { result ≡ event_on issue (Some code.now) }
{
    let Some((word, text)) = next_word(code) else {
        return Ok(None);
    };
    let verb = verb_in(word, issue)?;
    Ok(Some(event_by(verb, rest_in(text))?))
}

/// The event of a line, which may have its end; none where the line is blank before its comment.
#[tactic(auto, unfolding(crate::specs::Lines::event_in))]
pub fn event_in(line: &[u8], issue: Issue) -> Result<Option<Event>, Unread>
    ensures { result ≡ event_in issue line.now }
{
    match code_of(line) {
        Some(code) => event_on(code, issue),
        None => Err(Unread::More),
    }
}
