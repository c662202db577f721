//! Judging a log: the verdict on its text, or what else is wanted of it.
ghost use Rattle.std.specs.Prelude.{◌≡◌, IfOk, IfSome};
ghost use Rattle.judge.specs.Statuses.{IsStatus, status_of};

use crate::asked::{Asked, Wanted};
use crate::stages::{format_of, judged_stages};
use counted_io::Fault;
use events::{
    Issue, Item, Judge, LogJudge, Refused, Said, Unread, Verdict, fault_of, next_said, verdict_on,
};
use grading::stations_compared;
use instructions::Program;
use sheets::Held;
use std::alloc::{AllocError, Global};
use std::io::{BufRead, BufReader, Read};
use verdicts::{legal_text, push_event, refused_text, unread_text};

// How many bytes are read at once.
const AT_ONCE: usize = 65536;

/// How the program ends: its text on standard output, and its status.
#[derive(Drop)]
pub struct Ended {
    pub text: String,
    pub status: u8,
}

pub const LEGAL: u8 = 0;

pub const REFUSED: u8 = 1;

pub const UNREAD: u8 = 4;

// The judge of a unit before its first event.
fn judge_of<'a>(
    alloc: Global,
    program: &'a Program,
    asked: &Asked<'_>,
) -> Result<Judge<'a>, AllocError> {
    let mut judge = Judge::new(alloc, program, asked.ring, asked.queue)?;
    judge.guesses = asked.guesses;
    judge.flushes = asked.flushes;
    Ok(judge)
}

// The exit status of a verdict.
fn status_of(verdict: Verdict) -> u8
    ensures { result ≡ status_of verdict }
{
    match verdict {
        Verdict::Legal => LEGAL,
        Verdict::Refused(_) => REFUSED,
        Verdict::Unread(_, _) => UNREAD,
    }
}

// The text of a verdict.
fn text_of(alloc: Global, log: &LogJudge<'_>, verdict: Verdict) -> Result<String, Fault> {
    match verdict {
        Verdict::Legal => legal_text(alloc, &log.judge, log.judged),
        Verdict::Refused(Refused { item, why }) => refused_text(alloc, &log.judge, &item, why),
        Verdict::Unread(line, why) => unread_text(alloc, line, why),
    }
}

// How the program ends with a verdict.
fn ended_by(alloc: Global, log: &LogJudge<'_>, verdict: Verdict) -> Result<Ended, Fault>
    ensures { IfOk result (λ ended. ended.status ≡ status_of verdict) }
{
    Ok(Ended {
        text: text_of(alloc, log, verdict)?,
        status: status_of(verdict),
    })
}

// Judges the whole text of a log.
fn judged_text<L: BufRead>(
    alloc: Global,
    judge: Judge<'_>,
    issue: Issue,
    log: &mut L,
) -> Result<Ended, Fault>
    ensures { IfOk result (λ ended. IfSome (L.remaining log.old) (λ text.
        IsStatus issue judge.entry.unit ended.status text)) }
{
    let (verdict, held) = verdict_on(alloc, judge, issue, log)?;
    ended_by(alloc, &held, verdict)
}

/// Takes the events of a log that is judged up to a line or a cycle, printed, or compared with a table of stations.
#[derive(Drop)]
pub struct Judging<'a> {
    alloc: Global,
    log: LogJudge<'a>,
    /// The text of the events, where that is wanted in place of a verdict.
    events: Option<String>,
    /// The last cycle, or line of a text, that is taken.
    after: Option<u64>,
    /// The stations that are compared with those of the unit at the end, and the position of each row of a schedule.
    held: Option<Vec<Held>>,
    pub rows: Vec<usize>,
}

impl<'a> Judging<'a> {
    fn new(
        alloc: Global,
        judge: Judge<'a>,
        asked: &Asked<'_>,
        held: Option<Vec<Held>>,
    ) -> Judging<'a> {
        Judging {
            alloc,
            log: LogJudge::new(alloc, judge),
            events: match asked.wanted {
                Wanted::Events => Some(String::new(alloc)),
                _ => None,
            },
            after: asked.after,
            held,
            rows: Vec::new(alloc),
        }
    }

    // The event is after those that are wanted.
    fn is_past(&self, item: &Item) -> bool {
        let at = item.cycle.unwrap_or(item.line);
        self.after.is_some_and(|after| after < at)
    }

    /// Takes the next event of the log; how the program ends, if it is refused.
    pub fn take(&mut self, item: Item) -> Result<Option<Ended>, Fault> {
        if self.is_past(&item) {
            return Ok(None);
        }
        if let Some(events) = &mut self.events {
            push_item(events, &item)?;
            return Ok(None);
        }
        match self.log.take(item)? {
            Ok(()) => Ok(None),
            Err(refused) => {
                let verdict = Verdict::Refused(refused);
                Ok(Some(ended_by(self.alloc, &self.log, verdict)?))
            }
        }
    }

    // A line that is not read ends the log, once the events before it are judged.
    fn refuse_line(&mut self, line: u64, why: Unread) -> Result<Ended, Fault> {
        let verdict = self.log.close(Verdict::Unread(line, why))?;
        ended_by(self.alloc, &self.log, verdict)
    }

    /// The end of the log.
    pub fn end(&mut self) -> Result<Ended, Fault> {
        if let Some(text) = self.events.take() {
            return Ok(Ended {
                text,
                status: LEGAL,
            });
        }
        match (self.log.close(Verdict::Legal)?, &self.held) {
            (Verdict::Legal, Some(held)) => self.compared(held.as_slice()),
            (verdict, _) => ended_by(self.alloc, &self.log, verdict),
        }
    }

    // The stations of a table beside those of the unit.
    fn compared(&self, held: &[Held]) -> Result<Ended, Fault> {
        let unit = &self.log.judge.unit;
        let found = stations_compared(self.alloc, unit, held, self.rows.as_slice())?;
        let status = if found.right == found.stations {
            LEGAL
        } else {
            REFUSED
        };
        Ok(Ended {
            text: found.text,
            status,
        })
    }

    // Takes the events of the text of a log.
    fn text<L: BufRead>(mut self, issue: Issue, log: &mut L) -> Result<Ended, Fault> {
        let mut line = Vec::new(self.alloc);
        for before in 0..u64::MAX {
            let ended = match next_said(log, &mut line, before, issue)? {
                Said::End => break,
                Said::Nothing => None,
                Said::Event(item) => self.take(item)?,
                Said::Unread(number, why) => Some(self.refuse_line(number, why)?),
            };
            if let Some(ended) = ended {
                return Ok(ended);
            }
        }
        self.end()
    }
}

// Adds an event, and in a comment where it is from.
fn push_item(out: &mut String, item: &Item) -> Result<(), AllocError> {
    push_event(out, item.event)?;
    let line = item.line;
    match item.cycle {
        Some(cycle) => write!(out, " # line {line} cycle {cycle}\n"),
        None => write!(out, " # line {line}\n"),
    }
}

// A reader with a buffer.
fn buffered<R: Read + Drop>(alloc: Global, reader: R) -> Result<BufReader<R>, Fault> {
    match BufReader::with_capacity(alloc, AT_ONCE, reader) {
        Ok(reader) => Ok(reader),
        Err(error) => Err(fault_of(&error)),
    }
}

// The first line of a log; an empty one where there is none.
fn first_line<L: BufRead>(alloc: Global, log: &mut L) -> Result<Vec<u8>, Fault> {
    let mut line = Vec::new(alloc);
    match log.read_until(b'\n', &mut line) {
        Ok(_) => Ok(line),
        Err(error) => Err(fault_of(&error)),
    }
}

/// Judges the log of a reader, or compares stations with those of the unit after it.
pub fn judged<R: Read + Drop>(
    alloc: Global,
    program: &Program,
    asked: &Asked<'_>,
    held: Option<Vec<Held>>,
    log: R,
) -> Result<Ended, Fault> {
    let mut log = buffered(alloc, log)?;
    let judge = judge_of(alloc, program, asked)?;
    let first = first_line(alloc, &mut log)?;
    let format = format_of(first.as_slice());
    let mut log = first.as_slice().chain(log);
    match (format, asked.wanted, asked.after) {
        (Some(format), _, _) => {
            let judging = Judging::new(alloc, judge, asked, held);
            judged_stages(alloc, program, asked, format, judging, log)
        }
        (None, Wanted::Verdict, None) => judged_text(alloc, judge, asked.issue, &mut log),
        _ => Judging::new(alloc, judge, asked, held).text(asked.issue, &mut log),
    }
}
