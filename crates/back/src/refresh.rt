//! The memory port: the loads from the oldest live tenant on.
ghost use Rattle.std.specs.Prelude.{◌≡◌, ◌<◌, ◌≤◌};
ghost use Rattle.inorder.specs.Callers.{head_station};
ghost use Rattle.inorder.specs.History.{IsLegal, back};
ghost use Rattle.station.specs.Seats.{IsSameSeat};
ghost use Rattle.back.specs.Backs.{IsSameBack, committed_in, unit_in};
ghost use Rattle.back.specs.Port.{station_behind};
ghost use Rattle.back.specs.Refreshes.{RefreshAnswers};
ghost use Rattle.back.specs.Trials.{RefreshAtAnswers};
ghost use Rattle.back.specs.Wakings.{RefreshWakes};

use crate::answers::Refresh;
use crate::backs::Back;
use crate::port::{Tried, try_load};
use inorder::{Committed, wrapped};
use snapshots::OfProgram;
use station::{BackSeat, Core};

// Tries the loads from the head on, up to the first that gets its value.
fn scan(
    core: &Core,
    seat: &mut BackSeat,
    committed: &Committed,
    head: usize,
    ring: usize,
) -> Refresh
    requires core { seat.old.core ≡ core.now }
    requires by { seat.old.by ≡ back }
    requires legal { IsLegal core.now.program core.now.sizes seat.old.seen }
    requires ring { ring ≡ core.now.sizes.ring }
    requires most { ring ≤ 32 }
    requires head { head < ring }
    requires head_is { head ≡ head_station core.now.sizes (unit_in core.now seat.old.seen) }
    requires state { committed.now ≡ committed_in core.now seat.old.seen }
    ensures kept { IsSameSeat seat.old seat.new }
    ensures reply { RefreshAnswers core.now seat.old.by seat.old.seen seat.new.seen result }
    ensures woken { RefreshWakes core.now seat.old.by seat.old.seen seat.new.seen
        seat.old.woken seat.new.woken result }
{
    let mut blocked = None;
    for at in 0..ring {
        let station = wrapped(head + at, ring);
        match try_load(core, seat, committed, head, at) {
            Tried::Passed => {}
            Tried::Blocked(store) => {
                if blocked.is_none() {
                    blocked = Some((station, store));
                }
            }
            Tried::Loaded(tag, value) => {
                return Refresh::Loaded {
                    station,
                    tag,
                    value,
                };
            }
        }
    }
    match blocked {
        Some((load, store)) => Refresh::Blocked { load, store },
        None => Refresh::Idle,
    }
}

// The place of a station from the head's on.
#[tactic(auto, using(crate::proofs::Refreshing::place_at))]
fn place_from(head: usize, ring: usize, station: usize) -> usize
    requires most { ring ≤ 32 }
    requires head { head < ring }
    requires station { station < ring }
    ensures there { station_behind head ring result ≡ station }
    ensures small { result < ring }
{
    wrapped(station + (ring - head), ring)
}

// Tries the load of one station.
fn try_at(
    core: &Core,
    seat: &mut BackSeat,
    committed: &Committed,
    head: usize,
    ring: usize,
    station: usize,
) -> Refresh
    requires core { seat.old.core ≡ core.now }
    requires by { seat.old.by ≡ back }
    requires ring { ring ≡ core.now.sizes.ring }
    requires most { ring ≤ 32 }
    requires head { head < ring }
    requires head_is { head ≡ head_station core.now.sizes (unit_in core.now seat.old.seen) }
    requires station { station < ring }
    requires state { committed.now ≡ committed_in core.now seat.old.seen }
    ensures kept { IsSameSeat seat.old seat.new }
    ensures reply { RefreshAtAnswers core.now seat.old.by seat.old.seen seat.new.seen station
        result }
    ensures woken { RefreshWakes core.now seat.old.by seat.old.seen seat.new.seen
        seat.old.woken seat.new.woken result }
{
    let place = place_from(head, ring, station);
    match try_load(core, seat, committed, head, place) {
        Tried::Passed => Refresh::Idle,
        Tried::Blocked(store) => Refresh::Blocked {
            load: station,
            store,
        },
        Tried::Loaded(tag, value) => Refresh::Loaded {
            station,
            tag,
            value,
        },
    }
}

impl<J: OfProgram> Back<J> {
    /// Answers the oldest load with its address that no store blocks, from the data of an older store or from
    /// memory. It goes through the stations from the oldest live tenant's on. It looks at a load first, and at
    /// the older stores afterwards, the youngest one first; and at a blocked load once more.
    /// The rule is that of SimpleScalar's load/store queue (`lsq_refresh`), as `lsq` defines it.
    pub fn refresh(&mut self, core: &Core) -> Refresh
        requires core { self.old.core ≡ core.now }
        ensures kept { IsSameBack self.old self.new }
        ensures reply { RefreshAnswers core.now self.old.by self.old.seen self.new.seen result }
        ensures woken { RefreshWakes core.now self.old.by self.old.seen self.new.seen
            self.old.woken self.new.woken result }
    {
        let ring = core.ring();
        let head = self.head;
        scan(core, &mut self.seat, &self.committed, head, ring)
    }
    /// Answers the load of one station from the data of an older store or from memory, also before older loads: it is
    /// `Blocked` if an older store blocks it, and `Idle` where no live load with its address waits. Looks as `refresh` does.
    pub fn refresh_at(&mut self, core: &Core, station: usize) -> Refresh
        requires core { self.old.core ≡ core.now }
        requires station { station < core.now.sizes.ring }
        ensures kept { IsSameBack self.old self.new }
        ensures reply { RefreshAtAnswers core.now self.old.by self.old.seen self.new.seen station
            result }
        ensures woken { RefreshWakes core.now self.old.by self.old.seen self.new.seen
            self.old.woken self.new.woken result }
    {
        let ring = core.ring();
        let oldest = self.head;
        try_at(core, &mut self.seat, &self.committed, oldest, ring, station)
    }
}
