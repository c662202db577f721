//! The text of a log: a line for an event.
ghost use Rattle.std.specs.Prelude.{◌≡◌, ◌+◌, IfOk, IfSome, IsTrue, IsFalse};
ghost use Rattle.std.specs.Io.KnownBytes.{IsAtEnd};
ghost use Rattle.events.specs.Text.{IsLineRead, IsRead, IsVerdict, said};
ghost use Rattle.events.specs.Lines.{event_in};

use crate::event::Issue;
use crate::grammar::event_in;
use crate::item::Item;
use crate::judge::Judge;
use crate::log_judge::LogJudge;
use crate::unread::Unread;
use crate::verdict::Verdict;
use counted_io::Fault;
use std::alloc::Global;
use std::io::{self, BufRead, ErrorKind};

/// What the next line of a log says.
#[derive(Clone, Copy)]
pub enum Said {
    /// There is no line: the log has ended.
    End,
    /// Nothing, since the line is blank before its comment.
    Nothing,
    /// This event.
    Event(Item),
    /// The line of this number is not read.
    Unread(u64, Unread),
}

/// A failed read, which may be for want of memory.
pub fn fault_of(error: &io::Error) -> Fault {
    match error.kind() {
        ErrorKind::OutOfMemory => Fault::Memory,
        _ => Fault::Read,
    }
}

// Reads the next line, with its line feed; whether there is one.
fn read_line<L: BufRead>(log: &mut L, line: &mut Vec<u8>) -> Result<bool, Fault>
    ensures line { IfOk result (λ found. IsTrue found →
        IsLineRead (L.remaining log.old) line.new.items (L.remaining log.new)) }
    ensures end { IfOk result (λ found. IsFalse found → IsAtEnd (L.remaining log.old)) }
{
    line.clear();
    match log.read_until(b'\n', line) {
        Ok(count) => Ok(count > 0),
        Err(error) => Err(fault_of(&error)),
    }
}

// What a line of this number says.
fn said_by(line: &[u8], number: u64, issue: Issue) -> Said
    ensures { result ≡ said number (event_in issue line.now) }
{
    match event_in(line, issue) {
        Ok(Some(event)) => Said::Event(Item {
            line: number,
            cycle: None,
            event,
        }),
        Ok(None) => Said::Nothing,
        Err(why) => Said::Unread(number, why),
    }
}

/// Reads the next line of a log, of which `before` lines were read; what it says.
pub fn next_said<L: BufRead>(
    log: &mut L,
    line: &mut Vec<u8>,
    before: u64,
    issue: Issue,
) -> Result<Said, Fault>
    ensures { IfOk result (λ answer.
        IsRead issue (before + 1) (L.remaining log.old) answer (L.remaining log.new)) }
{
    let Some(number) = before.checked_add(1) else {
        return Err(Fault::Read);
    };
    if read_line(log, line)? {
        Ok(said_by(line.as_slice(), number, issue))
    } else {
        Ok(Said::End)
    }
}

/// The verdict of a judge on the text of a reader, and the judge after it. A text with the verdict `Legal` says a legal history:
/// `a_legal_text_is_a_history`.
pub fn verdict_on<'a, L: BufRead>(
    alloc: Global,
    judge: Judge<'a>,
    issue: Issue,
    log: &mut L,
) -> Result<(Verdict, LogJudge<'a>), Fault>
    ensures { IfOk result (λ found. IfSome (L.remaining log.old) (λ text.
        IsVerdict issue judge.entry.unit text found.0 found.1.judge.unit)) }
{
    let mut held = LogJudge::new(alloc, judge);
    let mut line = Vec::new(alloc);
    for number in 0..u64::MAX {
        let verdict = match next_said(log, &mut line, number, issue)? {
            Said::Nothing => continue,
            Said::Event(item) => match held.take(item)? {
                Ok(()) => continue,
                Err(refused) => Verdict::Refused(refused),
            },
            Said::End => held.close(Verdict::Legal)?,
            Said::Unread(at, why) => held.close(Verdict::Unread(at, why))?,
        };
        return Ok((verdict, held));
    }
    Err(Fault::Read)
}
