//! The words and numbers of answers.
ghost use Rattle.std.specs.Prelude.{◌≡◌, Some};
ghost use Rattle.session.specs.Texts.{finish_words, half_text, info_words, job_words, refresh_words, refusal_text, reply_words, rest_text, ring_words, seen_words, some_station, source_text, state_text};

use crate::replies::{Finished, Head, Info, NextFetch, Refreshed, Refusal, Reply};
use crate::units::{Claimed, Held};
use back::{Commit, Refresh};
use front::{Made, Recovery, Rest, Turn};
use instructions::Half;
use isa::Hexadecimal;
use station::{Finish, Seen, Source, StationState};
use std::fmt;

pub(crate) fn half(half: Half) -> &'static str
    ensures { result.now ≡ half_text half }
{
    match half {
        Half::Low => "Low",
        Half::High => "High",
    }
}

fn source(k: Source) -> &'static str
    ensures { result.now ≡ source_text k }
{
    match k {
        Source::First => "1",
        Source::Second => "2",
    }
}

pub(crate) fn state(state: StationState) -> &'static str
    ensures { result.now ≡ state_text state }
{
    match state {
        StationState::Free => "FREE",
        StationState::Open => "OPEN",
        StationState::Busy => "BUSY",
        StationState::Addr => "ADDR",
        StationState::Done => "DONE",
        StationState::Miss => "MISS",
        StationState::Stop => "STOP",
    }
}

fn rest_text(rest: Rest) -> &'static str
    ensures { result.now ≡ rest_text rest }
{
    match rest {
        Rest::Idle => "Idle",
        Rest::Live => "Live",
    }
}

pub(crate) fn refusal_text(refusal: Refusal) -> &'static str
    ensures { result.now ≡ refusal_text refusal }
{
    match refusal {
        Refusal::NoUnit => "there is no such unit",
        Refusal::NoStation => "there is no such station",
        Refusal::NoRegister => "there is no such register",
        Refusal::HoldsJob => "this unit holds a job",
        Refusal::HoldsNone => "this unit holds no job of that station",
        Refusal::NoMark => "no snapshot was shown yet",
        Refusal::NoCount => "no more can be counted",
        Refusal::NoRest => "the front has not rested",
        Refusal::HasEnded => "the run has ended",
        Refusal::NoOther => "a seat does not meet itself",
    }
}

impl fmt::Display for Held {
    ghost output = { λ held. Some (job_words held) };

    fn fmt<W: fmt::Write>(&self, f: &mut fmt::Formatter<W>) -> fmt::Result {
        let (station, tag, index, half) = (self.station, self.tag, self.index, half(self.half));
        let (pc, predicted) = (Hexadecimal(self.pc), Hexadecimal(self.predicted));
        let a = Hexadecimal(self.a);
        write!(
            f,
            "Job station {station} tag {tag} index {index} half {half} pc {pc} predicted {predicted} a {a}"
        )
    }
}

impl fmt::Display for Finished {
    ghost output = { λ finished. Some (finish_words finished.answer finished) };

    fn fmt<W: fmt::Write>(&self, f: &mut fmt::Formatter<W>) -> fmt::Result {
        let (station, tag) = (self.station, self.tag);
        let (state, value) = (state(self.seen.state), Hexadecimal(self.seen.value));
        match self.answer {
            Finish::Finished => {
                write!(
                    f,
                    "Finished station {station} tag {tag} {state} value {value}"
                )
            }
            Finish::Stale => write!(f, "Stale station {station} tag {tag}"),
        }
    }
}

impl fmt::Display for Refreshed {
    ghost output = { λ refreshed. Some (refresh_words refreshed.answer) };

    fn fmt<W: fmt::Write>(&self, f: &mut fmt::Formatter<W>) -> fmt::Result {
        match self.answer {
            Refresh::Loaded {
                station,
                tag,
                value,
            } => {
                let value = Hexadecimal(value);
                write!(f, "Loaded station {station} tag {tag} value {value}")
            }
            Refresh::Blocked { load, store } => write!(f, "Blocked load {load} store {store}"),
            Refresh::Idle => f.write_str("Idle"),
        }
    }
}

/// The word of a station.
#[derive(Clone, Copy)]
pub(crate) struct Word(pub Seen<StationState>);

impl fmt::Display for Word {
    ghost output = { λ word. Some (seen_words word.0) };

    fn fmt<W: fmt::Write>(&self, f: &mut fmt::Formatter<W>) -> fmt::Result {
        let (tag, state, value) = (self.0.tag, state(self.0.state), Hexadecimal(self.0.value));
        write!(f, "tag {tag} state {state} value {value}")
    }
}

impl fmt::Display for Info {
    ghost output = { λ info. Some (info_words info) };

    fn fmt<W: fmt::Write>(&self, f: &mut fmt::Formatter<W>) -> fmt::Result {
        let (index, half, predicted) = (self.index, half(self.half), Hexadecimal(self.predicted));
        write!(f, " index {index} half {half} predicted {predicted}")
    }
}

/// A station, or that there is none.
#[derive(Clone, Copy)]
pub(crate) struct SomeStation(pub Option<usize>);

impl fmt::Display for SomeStation {
    ghost output = { λ some. Some (some_station some.0) };

    fn fmt<W: fmt::Write>(&self, f: &mut fmt::Formatter<W>) -> fmt::Result {
        match self.0 {
            Some(station) => write!(f, "{station}"),
            None => f.write_str("none"),
        }
    }
}

// The ring: its oldest tenant, and where the path goes on.
#[derive(Clone, Copy)]
struct Ring(Head, NextFetch);

impl fmt::Display for Ring {
    ghost output = { λ ring. Some (ring_words ring.0 ring.1) };

    fn fmt<W: fmt::Write>(&self, f: &mut fmt::Formatter<W>) -> fmt::Result {
        let (head, free) = (SomeStation(self.0.station), self.0.free);
        let (tail, next) = (self.1.station, Hexadecimal(self.1.pc));
        write!(f, "head {head} tail {tail} next {next} free {free}")
    }
}

/// The words and numbers of an answer. A report has lines of its own.
#[derive(Clone, Copy)]
pub(crate) struct Words<'a>(pub &'a Reply);

impl fmt::Display for Words<'_> {
    ghost output = { λ words. Some (reply_words words.0.now) };

    fn fmt<W: fmt::Write>(&self, f: &mut fmt::Formatter<W>) -> fmt::Result {
        match self.0 {
            Reply::Turn(Turn::Full, _) => f.write_str("Full"),
            Reply::Turn(Turn::NoInstr, _) => f.write_str("NoInstr"),
            Reply::Turn(Turn::QueueFull, _) => f.write_str("QueueFull"),
            Reply::Turn(Turn::Spent, _) => f.write_str("Spent"),
            Reply::Turn(Turn::Let { station, tag, pc }, _) => {
                let pc = Hexadecimal(*pc);
                write!(f, "Let station {station} tag {tag} pc {pc}")
            }
            Reply::Recovery(Recovery::Mended { station, squashed }) => {
                write!(f, "Mended station {station} squashed {squashed}")
            }
            Reply::Recovery(Recovery::NoMiss) => f.write_str("NoMiss"),
            Reply::Claim(Claimed::Job(held), _) => write!(f, "{held}"),
            Reply::Claim(Claimed::NotOpen, _) => f.write_str("NotOpen"),
            Reply::Claim(Claimed::Waiting { tag, k }, _) => {
                let k = source(*k);
                write!(f, "Waiting tag {tag} source {k}")
            }
            Reply::Claim(Claimed::Moved { tag }, _) => write!(f, "Moved tag {tag}"),
            Reply::Finish(finished) => write!(f, "{finished}"),
            Reply::Refresh(refreshed) => write!(f, "{refreshed}"),
            Reply::Commit(Commit::Retired { pc, n }, _) => {
                let pc = Hexadecimal(*pc);
                write!(f, "Retired pc {pc} n {n}")
            }
            Reply::Commit(Commit::Half { pc }, _) => {
                let pc = Hexadecimal(*pc);
                write!(f, "Half pc {pc}")
            }
            Reply::Commit(Commit::NotDone, _) => f.write_str("NotDone"),
            Reply::Commit(Commit::Empty, _) => f.write_str("Empty"),
            Reply::Commit(Commit::Ended(code), _) => write!(f, "Ended {code}"),
            Reply::Shown(mark) => write!(f, "Mark n {}", mark.n),
            Reply::Memory => f.write_str("Memory"),
            Reply::Taken(snap) => {
                let (n, pc) = (snap.n, Hexadecimal(snap.pc));
                write!(f, "Snap n {n} pc {pc}")
            }
            Reply::Gone => f.write_str("Gone"),
            Reply::Learnt => f.write_str("Learnt"),
            Reply::Look(seen) => write!(f, "Seen {}", Word(*seen)),
            Reply::Creator(Made::Made { station, tag }) => {
                write!(f, "Made station {station} tag {tag}")
            }
            Reply::Creator(Made::Base(value)) => write!(f, "Base {}", Hexadecimal(*value)),
            Reply::Touched(count) => write!(f, "{count}"),
            Reply::Info(info) => write!(f, "Info{info}"),
            Reply::Operand(_, operand) => write!(f, "Seen tag {} state ", operand.seen.tag),
            Reply::Link(Some(from)) => {
                write!(f, "Link from station {} tag {}", from.station, from.tag)
            }
            Reply::Link(None) => f.write_str("NoLink"),
            Reply::Station(row) => write!(f, "{}", Word(row.seen)),
            Reply::Ring(head, ahead) => write!(f, "{}", Ring(*head, *ahead)),
            Reply::Rest(rest) => f.write_str(rest_text(*rest)),
            Reply::Met => f.write_str("Met"),
            Reply::Report(_) => Ok(()),
            Reply::Renewed => f.write_str("Renewed"),
            Reply::Refused(refusal) => f.write_str(refusal_text(*refusal)),
        }
    }
}
