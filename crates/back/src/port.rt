//! The memory port: one load over the older stores.
ghost use Rattle.std.specs.Prelude.{◌≡◌, ◌<◌, ◌≤◌, ◌+◌, IfErr, IfNone, IfOk, IfSome, Some, false, true, length};
ghost use Rattle.instructions.specs.Instruction.{width as width_in};
ghost use Rattle.inorder.specs.Callers.{head_station};
ghost use Rattle.inorder.specs.History.{IsLegal, back};
ghost use Rattle.station.specs.Seats.{IsSameSeat};
ghost use Rattle.back.specs.Wakings.{TryWakes};
ghost use Rattle.back.specs.Backs.{SeesMore, committed_in, unit_in};
ghost use Rattle.back.specs.Trials.{NobodyWaits, ThisWaits, TriedAnswers, load_of_index};
ghost use Rattle.back.specs.Port.{Ceases, IsEntryThere, LoadIsInside, MayAnswer, MayBlock, Remains, SearchFinds, SearchMisses};

use crate::entries::{address, content, entry};
use inorder::{Committed, access_width, wrapped};
use instructions::{Kind, Op, Program, loaded};
use lsq::{Entry, lacks_address, overlaps, taken_from};
use station::{BackSeat, Core, Settle, Source};

/// A load with its address.
#[derive(Clone, Copy)]
pub struct Load {
    pub tag: u32,
    pub address: u32,
    pub op: Op,
}

/// The outcome of a try to load at one station.
#[derive(Clone, Copy)]
pub enum Tried {
    /// No load waits there.
    Passed,
    /// The load waits for the store of this station.
    Blocked(usize),
    /// The load got its value: the tag of the load, and the value.
    Loaded(u32, u32),
}

// Reads a tenant: first its info word and then its station's word, so that the latter is as new as can be.
fn look(core: &Core, seat: &mut BackSeat, station: usize) -> Entry
    requires core { seat.old.core ≡ core.now }
    requires by { seat.old.by ≡ back }
    requires station { station < core.now.sizes.ring }
    ensures kept { IsSameSeat seat.old seat.new }
    ensures woken { seat.new.woken ≡ seat.old.woken }
    ensures history { SeesMore core.now seat.old.by seat.old.seen seat.new.seen }
    ensures shows { IsEntryThere core.now seat.old.seen seat.new.seen station result }
{
    let (index, ..) = core.info(seat, station);
    let seen = core.look(seat, station);
    let index = index as usize;
    let program = core.program();
    if index < program.len() {
        entry(program.instr(index), seen.state, seen.value)
    } else {
        Entry::default()
    }
}

// The youngest older store that overlaps a load, if there is one; an error names the youngest that has no address.
fn search(
    core: &Core,
    seat: &mut BackSeat,
    head: usize,
    at: usize,
    load: &Load,
) -> Result<Option<(usize, Entry)>, usize>
    requires core { seat.old.core ≡ core.now }
    requires by { seat.old.by ≡ back }
    requires legal { IsLegal core.now.program core.now.sizes seat.old.seen }
    requires head { head < core.now.sizes.ring }
    requires at { at < core.now.sizes.ring }
    ensures kept { IsSameSeat seat.old seat.new }
    ensures woken { seat.new.woken ≡ seat.old.woken }
    ensures history { SeesMore core.now seat.old.by seat.old.seen seat.new.seen }
    ensures ok { IfOk result (SearchFinds core.now seat.old.seen seat.new.seen head at load.now) }
    ensures err { IfErr result (SearchMisses core.now seat.old.seen seat.new.seen head at) }
{
    let ring = core.ring();
    let width = access_width(load.op);
    let mut found = None;
    let mut k = at;
    while k > 0 {
        k -= 1;
        let store = look(core, seat, wrapped(head + k, ring));
        if lacks_address(&store) {
            return Err(k);
        }
        if overlaps(&store, load.address, width) {
            found = found.or(Some((k, store)));
        }
    }
    Ok(found)
}

// The value of a load by the rule for loads; an error names the store that blocks it.
fn answer(
    core: &Core,
    seat: &mut BackSeat,
    committed: &Committed,
    head: usize,
    at: usize,
    load: &Load,
) -> Result<u32, usize>
    requires core { seat.old.core ≡ core.now }
    requires by { seat.old.by ≡ back }
    requires legal { IsLegal core.now.program core.now.sizes seat.old.seen }
    requires head { head < core.now.sizes.ring }
    requires head_is { head ≡ head_station core.now.sizes (unit_in core.now seat.old.seen) }
    requires at { at < core.now.sizes.ring }
    requires state { committed.now ≡ committed_in core.now seat.old.seen }
    requires inside { load.now.address + width_in load.now.op ≤ length committed.now.memory }
    ensures kept { IsSameSeat seat.old seat.new }
    ensures woken { seat.new.woken ≡ seat.old.woken }
    ensures history { SeesMore core.now seat.old.by seat.old.seen seat.new.seen }
    ensures bound { IfErr result (λ s. s < at) }
    ensures ok { IfOk result (MayAnswer core.now seat.old.seen seat.new.seen head at load.now) }
    ensures err { IfErr result (MayBlock core.now seat.old.seen seat.new.seen head at load.now) }
{
    let ring = core.ring();
    let found = match search(core, seat, head, at, load) {
        Ok(found) => found,
        Err(k) => return Err(k),
    };
    let Some((k, store)) = found else {
        let raw = committed.number_at(load.address as usize, load.op.width() as usize);
        return Ok(loaded(load.op, raw));
    };
    let data = core.operand(seat, wrapped(head + k, ring), Source::Second);
    let content = content(data.state, data.value);
    let store = Entry { content, ..store };
    let Some(raw) = taken_from(&store, load.address, access_width(load.op)) else {
        return Err(k);
    };
    Ok(loaded(load.op, raw))
}

// The load of an instruction, if it is one.
fn load_at(program: &Program, index: usize, tag: u32, address: u32) -> Option<Load>
    ensures { result ≡ load_of_index program.now index tag address }
{
    if index >= program.len() {
        return None;
    }
    let op = program.instr(index).op();
    match op.kind() {
        Kind::Loads if u64::from(address) + u64::from(op.width()) <= u64::from(program.size()) => {
            Some(Load { tag, address, op })
        }
        _ => None,
    }
}

// The load of a station that has its address and waits.
fn find_waiting(core: &Core, seat: &mut BackSeat, station: usize) -> Option<Load>
    requires core { seat.old.core ≡ core.now }
    requires by { seat.old.by ≡ back }
    requires station { station < core.now.sizes.ring }
    ensures kept { IsSameSeat seat.old seat.new }
    ensures woken { seat.new.woken ≡ seat.old.woken }
    ensures history { SeesMore core.now seat.old.by seat.old.seen seat.new.seen }
    ensures none { IfNone result (NobodyWaits core.now seat.old.seen seat.new.seen station) }
    ensures some { IfSome result (ThisWaits core.now seat.old.seen seat.new.seen station) }
    ensures inside { IfSome result (LoadIsInside core.now.program) }
{
    let seen = core.look(seat, station);
    let Some(address) = address(seen.state, seen.value) else {
        return None;
    };
    let (index, ..) = core.info(seat, station);
    load_at(core.program(), index as usize, seen.tag, address)
}

// True if the load at this station still waits.
fn is_still(core: &Core, seat: &mut BackSeat, station: usize, load: &Load) -> bool
    requires core { seat.old.core ≡ core.now }
    requires by { seat.old.by ≡ back }
    requires station { station < core.now.sizes.ring }
    ensures kept { IsSameSeat seat.old seat.new }
    ensures woken { seat.new.woken ≡ seat.old.woken }
    ensures history { SeesMore core.now seat.old.by seat.old.seen seat.new.seen }
    ensures still { result ≡ true → Remains core.now seat.old.seen seat.new.seen station load.now }
    ensures gone { result ≡ false → Ceases core.now seat.old.seen seat.new.seen station load.now }
{
    let seen = core.look(seat, station);
    seen.tag == load.tag && address(seen.state, seen.value).is_some()
}

/// Answers the load of a station, the `at`-th from the head on, if one waits there and nothing blocks it.
pub(crate) fn try_load(
    core: &Core,
    seat: &mut BackSeat,
    committed: &Committed,
    head: usize,
    at: usize,
) -> Tried
    requires core { seat.old.core ≡ core.now }
    requires by { seat.old.by ≡ back }
    requires head { head < core.now.sizes.ring }
    requires head_is { head ≡ head_station core.now.sizes (unit_in core.now seat.old.seen) }
    requires at { at < core.now.sizes.ring }
    requires state { committed.now ≡ committed_in core.now seat.old.seen }
    ensures kept { IsSameSeat seat.old seat.new }
    ensures reply { TriedAnswers core.now seat.old.by seat.old.seen seat.new.seen head at result }
    ensures woken { TryWakes core.now seat.old.by seat.old.seen seat.new.seen
        seat.old.woken seat.new.woken result }
{
    let ring = core.ring();
    let station = wrapped(head + at, ring);
    let Some(load) = find_waiting(core, seat, station) else {
        return Tried::Passed;
    };
    match answer(core, seat, committed, head, at, &load) {
        Ok(value) => match core.settle(seat, station, load.tag, value) {
            Settle::Settled => Tried::Loaded(load.tag, value),
            Settle::Stale => Tried::Passed,
        },
        Err(k) => {
            if is_still(core, seat, station, &load) {
                Tried::Blocked(wrapped(head + k, ring))
            } else {
                Tried::Passed
            }
        }
    }
}
