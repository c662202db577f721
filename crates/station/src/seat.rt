//! Seats.
use atomic_table::{Seat, Shared};
use ruu_words::rule::{OneHistory, Setup, View};
use std::marker::{Model, PhantomData};
use std::snapshot::Snapshot;

// The words of a core.
pub(crate) type Words = Shared<u8, View, Setup, OneHistory>;

/// The part that a seat is for: the front, the back or a unit.
pub trait Part {
    ghost use Rattle.ruu_words.specs.declared.rule.Role.{Role};

    ghost role: { Role };
}

/// The front's part.
#[derive(Drop)]
pub struct FrontPart;

impl Part for FrontPart {
    ghost use Rattle.ruu_words.specs.declared.rule.Role.TheVariants.{Front};

    ghost role = { Front };
}

/// The back's part.
#[derive(Drop)]
pub struct BackPart;

impl Part for BackPart {
    ghost use Rattle.ruu_words.specs.declared.rule.Role.TheVariants.{Back};

    ghost role = { Back };
}

/// A unit's part.
/// Beside the front and the back a unit is a functional unit: it claims, computes and finishes.
#[derive(Drop)]
pub struct UnitPart;

impl Part for UnitPart {
    ghost use Rattle.ruu_words.specs.declared.rule.Role.TheVariants.{Worker};

    ghost role = { Worker };
}

/// A seat at one core. Contracts see which core it is, the caller's number, the numbers that it may
/// give away, and what it has seen.
#[derive(Drop)]
pub struct SeatOf<P: Part> {
    pub(crate) seat: Seat<u8, View>,
    pub(crate) words: Snapshot<Words>,
    // the station of the front's next tenant, or of the back's oldest live tenant
    pub(crate) station: usize,
    // the back has retired a stop
    pub(crate) over: bool,
    // the stations that its last result was taken to, a bit for each
    pub(crate) woken: u32,
    pub(crate) part: PhantomData<P>,
}

impl<P: Part> Model for SeatOf<P> {
    ghost use Rattle.ruu_words.specs.Openings.{opening_of, sizes_of};
    ghost use Rattle.station.specs.Seats.{Caller, IsNumbered, IsSeated, core_of};

    ghost Value = { Caller };

    ghost view = { λ s.
        record {
          core = core_of s.seat.table_id s.words.value.key;
          by = s.seat.me.0.by;
          spare = s.seat.me.0.spare;
          seen = s.seat.me.0.seen;
          woken = s.woken;
        } };

    ghost invariant = { λ s.
        IsSeated s.words.value.key.program (sizes_of s.words.value.key) P.role s.seat.me.0.by
        s.station s.over s.seat.me ×
        IsNumbered (opening_of s.words.value.key) P.role s.seat.me.0 };
}

impl<P: Part> SeatOf<P> {
    ghost use Rattle.std.specs.Prelude.{◌≡◌, false};
    ghost use Rattle.ruu_words.specs.Openings.{opening_of, sizes_of};
    ghost use Rattle.station.specs.Seats.{IsNumbered, IsSeated, core_of};

    // A seat at a core where nothing was done yet.
    pub(crate) fn first_seat(seat: Seat<u8, View>, words: &Words) -> SeatOf<P>
        requires seated { IsSeated words.now.key.program (sizes_of words.now.key) P.role
            seat.me.0.by 0 false seat.me }
        requires numbered { IsNumbered (opening_of words.now.key) P.role seat.me.0 }
        ensures { result ≡
            record {
              core = core_of seat.table_id words.now.key;
              by = seat.me.0.by;
              spare = seat.me.0.spare;
              seen = seat.me.0.seen;
              woken = 0;
            } }
    {
        SeatOf {
            seat,
            words: Snapshot::of(words),
            station: 0,
            over: false,
            woken: 0,
            part: PhantomData,
        }
    }
}

/// A part that writes results.
pub trait Writer: Part {}

impl Writer for BackPart {}

impl Writer for UnitPart {}

impl<P: Writer> SeatOf<P> {
    ghost use Rattle.std.specs.Prelude.{◌≡◌};

    /// The stations that the seat's last `finish` or `settle` took its value to: bit s is set if one or both
    /// sources of station s got the value. No bit is set where there was no such call, or a `split` since.
    pub fn woken(&self) -> u32
        ensures { result ≡ self.now.woken }
    {
        self.woken
    }
}

pub type FrontSeat = SeatOf<FrontPart>;

pub type BackSeat = SeatOf<BackPart>;

pub type UnitSeat = SeatOf<UnitPart>;
