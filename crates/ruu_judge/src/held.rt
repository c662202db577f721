//! A judge that is told one line of a log after another.
ghost use Rattle.std.specs.Prelude.{◌≡◌};
ghost use Rattle.events.specs.Lines.{event_in};
ghost use Rattle.ruu_judge.specs.Answers.{IsAnswer, IsAnswerToEvent, IsAnswerToLine, IsAsBefore};

use crate::owned::{Judged, OwnedUnit, Rules};
use counted_io::Fault;
use events::{Event, Issue, Item, Unread, Why, event_in};
use std::alloc::Global;
use verdicts::unread_text;

/// What a judge has found up to now.
#[derive(Drop)]
pub enum Found {
    /// Each event is legal.
    Legal(OwnedUnit),
    /// The last event is refused.
    Refused(OwnedUnit, Item, Why),
    /// Memory was refused as the last event was judged.
    NoMemory,
}

/// A judge, and what it was told.
#[derive(Drop)]
pub struct Held {
    pub rules: Rules,
    pub lines: u64,
    pub judged: u64,
    /// Why the last line was not read.
    pub unread: Option<Unread>,
    pub found: Found,
}

/// What is said of a line.
#[derive(Clone, Copy)]
pub enum Answer {
    /// The event is legal, or the line has none.
    Legal,
    Refused,
    /// The line is not read, and is as if it had not been told.
    Unread,
    NoMemory,
    /// An earlier event was refused, or memory was.
    Ended,
}

impl Held {
    /// A judge of a unit, before its first line.
    pub fn new(rules: Rules, unit: OwnedUnit) -> Held
        ensures found { result.found ≡ Found.Legal unit }
        ensures rules { result.rules ≡ rules }
    {
        Held {
            rules,
            lines: 0,
            judged: 0,
            unread: None,
            found: Found::Legal(unit),
        }
    }

    /// A judge that has ended, which stands in the place of one at work.
    pub fn ended() -> Held {
        Held {
            rules: Rules {
                issue: Issue::Ambiguous,
                guesses: false,
                flushes: false,
            },
            lines: 0,
            judged: 0,
            unread: None,
            found: Found::NoMemory,
        }
    }

    /// Takes a line of the log.
    pub fn told(self, text: &[u8]) -> (Held, Answer)
        ensures answer { IsAnswer self.rules.issue self.found text.now result.1 result.0.found }
        ensures rules { result.0.rules ≡ self.rules }
    {
        let Held {
            rules,
            lines,
            judged,
            unread: _,
            found,
        } = self;
        let held = Held {
            rules,
            lines: lines.saturating_add(1),
            judged,
            unread: None,
            found: Found::NoMemory,
        };
        match found {
            Found::Legal(unit) => held.read(unit, text),
            _ => (Held { found, ..held }, Answer::Ended),
        }
    }

    // Reads the line, whose number is that of this judge.
    fn read(self, unit: OwnedUnit, text: &[u8]) -> (Held, Answer)
        ensures answer { IsAnswerToLine unit (event_in self.rules.issue text.now) result.1 result.0.found }
        ensures rules { result.0.rules ≡ self.rules }
    {
        match event_in(text, self.rules.issue) {
            Ok(Some(event)) => self.judge(unit, event),
            Ok(None) => (
                Held {
                    found: Found::Legal(unit),
                    ..self
                },
                Answer::Legal,
            ),
            Err(why) => (
                Held {
                    unread: Some(why),
                    found: Found::Legal(unit),
                    ..self
                },
                Answer::Unread,
            ),
        }
    }

    // Judges the event of the line.
    fn judge(self, unit: OwnedUnit, event: Event) -> (Held, Answer)
        ensures answer { IsAnswerToEvent unit event result.1 result.0.found }
        ensures rules { result.0.rules ≡ self.rules }
    {
        let item = Item {
            line: self.lines,
            cycle: None,
            event,
        };
        match unit.judged(self.rules, event) {
            Judged::Legal(unit) => (
                Held {
                    judged: self.judged.saturating_add(1),
                    found: Found::Legal(unit),
                    ..self
                },
                Answer::Legal,
            ),
            Judged::Refused(unit, why) => (
                Held {
                    found: Found::Refused(unit, item, why),
                    ..self
                },
                Answer::Refused,
            ),
            Judged::NoMemory => (
                Held {
                    found: Found::NoMemory,
                    ..self
                },
                Answer::NoMemory,
            ),
        }
    }

    /// The text of the verdict on the last line, as the program `judge` prints it.
    pub fn text(self, alloc: Global) -> (Held, Result<String, Fault>)
        ensures found { IsAsBefore self.found result.0.found }
        ensures rules { result.0.rules ≡ self.rules }
    {
        if let Some(why) = self.unread {
            let text = unread_text(alloc, self.lines, why);
            return (self, text);
        }
        let Held {
            rules,
            lines,
            judged,
            unread,
            found,
        } = self;
        let (found, text) = match found {
            Found::Legal(unit) => {
                let (unit, text) = unit.text(alloc, None, judged);
                (Found::Legal(unit), text)
            }
            Found::Refused(unit, item, why) => {
                let (unit, text) = unit.text(alloc, Some((item, why)), judged);
                (Found::Refused(unit, item, why), text)
            }
            Found::NoMemory => (Found::NoMemory, Err(Fault::Memory)),
        };
        let held = Held {
            rules,
            lines,
            judged,
            unread,
            found,
        };
        (held, text)
    }
}
