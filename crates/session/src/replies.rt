//! What a session answers.
ghost use Rattle.std.specs.Prelude.{◌≡◌, ◌<◌};
ghost use Rattle.session.specs.Accounts.{producer_named};
ghost use Rattle.session.specs.Rows.{head_with, is_free};

use crate::units::Claimed;
use back::{Commit, Mark, Refresh, Snap};
use front::{Made, Recovery, Rest, Turn};
use instructions::{End, Half};
use station::{Finish, LinkWord, Seen, Source, SourceState, StationState};

/// Why a command is not allowed. Nothing is done then.
#[derive(Clone, Copy)]
pub enum Refusal {
    /// There can be no such unit.
    NoUnit,
    NoStation,
    NoRegister,
    /// The unit has a job, which it has to finish first.
    HoldsJob,
    /// The unit holds no job of this station.
    HoldsNone,
    /// No snapshot was shown yet.
    NoMark,
    /// As many instructions were committed as can be counted.
    NoCount,
    /// The front has not rested, or has turned or recovered since.
    NoRest,
    /// The run has ended.
    HasEnded,
    /// Two that are one do not meet.
    NoOther,
}

/// An info word: the index of an instruction, a half of that, and the predicted next pc.
#[derive(Clone, Copy)]
pub struct Info {
    pub index: u32,
    pub half: Half,
    pub predicted: u32,
}

/// The finish of a job: of which tenant, whom it has woken, and the word of the station behind it. Bit s is set where one
/// or both sources of station s got the value.
#[derive(Clone, Copy)]
pub struct Finished {
    pub answer: Finish,
    pub station: usize,
    pub tag: u32,
    pub woken: u32,
    pub seen: Seen<StationState>,
}

/// A refresh, and whom the last load that got its value has woken, as of a finish.
#[derive(Clone, Copy)]
pub struct Refreshed {
    pub answer: Refresh,
    pub woken: u32,
}

/// A tenant whose value another one waits for, by its station and tag.
#[derive(Clone, Copy)]
pub struct Producer {
    pub station: usize,
    pub tag: u32,
}

/// An operand word, the info word of its station, and the producer that it waits for.
#[derive(Clone, Copy)]
pub struct Operand {
    pub info: Info,
    pub seen: Seen<SourceState>,
    pub from: Option<Producer>,
}

/// The words of a station, the unit that holds its tenant's job, and the two operands.
#[derive(Clone, Copy)]
pub struct Row {
    pub seen: Seen<StationState>,
    pub unit: Option<usize>,
    pub first: Operand,
    pub second: Operand,
}

/// The station of the oldest tenant, if one is live, and how many stations are free.
#[derive(Clone, Copy)]
pub struct Head {
    pub station: Option<usize>,
    pub free: usize,
}

/// Where the path goes on: the station and the pc of the next tenant.
#[derive(Clone, Copy)]
pub struct NextFetch {
    pub station: usize,
    pub pc: u32,
}

/// The answer to a command: that of its call, or why that is not allowed.
#[derive(Drop)]
pub enum Reply {
    /// With the info word of the tenant that was let.
    Turn(Turn, Option<Info>),
    Recovery(Recovery),
    /// With the producer that the tenant waits for.
    Claim(Claimed, Option<Producer>),
    Finish(Finished),
    Refresh(Refreshed),
    /// With the words of the oldest tenant's station before it, if one was live.
    Commit(Commit, Option<(usize, Row)>),
    Shown(Mark),
    /// There was no memory to show a snapshot, for a report, or for another core.
    Memory,
    Taken(Snap),
    /// There is no snapshot to take.
    Gone,
    Learnt,
    Look(Seen<StationState>),
    Creator(Made),
    Touched(u64),
    Info(Info),
    Operand(Source, Operand),
    /// The producer that a source waits for, by the link words.
    Link(Option<Producer>),
    Station(Row),
    Ring(Head, NextFetch),
    Rest(Rest),
    Met,
    Report(End),
    Renewed,
    Refused(Refusal),
}

/// The producer that the link word of a station names for the tenant with this tag.
pub(crate) fn producer_named(seen: Option<LinkWord>, station: usize, tag: u32) -> Option<Producer>
    ensures { result ≡ producer_named seen station tag }
{
    match seen {
        Some(found) if found.consumer == tag => Some(Producer {
            station,
            tag: found.producer,
        }),
        _ => None,
    }
}

/// A free station.
pub(crate) fn is_free(state: StationState) -> bool
    ensures { result ≡ is_free state }
{
    match state {
        StationState::Free => true,
        _ => false,
    }
}

/// One more station was looked at.
pub(crate) fn head_with(head: Head, station: usize, free: bool) -> Head
    requires { head.free < 32 }
    ensures { result ≡ head_with head station free }
{
    if free {
        return Head {
            station: head.station,
            free: head.free + 1,
        };
    }
    Head {
        station: head.station.or(Some(station)),
        free: head.free,
    }
}
