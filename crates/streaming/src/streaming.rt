//! From the window to a flow, and back.
ghost use Rattle.std.specs.Prelude.{◌≡◌, ◌<◌, ◌≤◌, length, slice_get, is_some, true, IfSome, None, Some};
ghost use Rattle.instructions.specs.Instruction.{kind as kind_of};
ghost use Rattle.instructions.specs.Programs.{instr_at};
ghost use Rattle.one_thread.specs.Changes.{run_from};
ghost use Rattle.one_thread.specs.Decoding.{IsDecoded};
ghost use Rattle.streaming.specs.Flow.{AreThere, CanRestore, Flows, in_order, restored, window_of};
ghost use Rattle.streaming.specs.CompletedRing.{made_by, stage_by, station_in};
ghost use Rattle.streaming.specs.Kept.{registers_before as before_of};
ghost use Rattle.one_thread.specs.declared.leaves.Leaves.TheVariants.{Any};
ghost use Rattle.streaming.specs.Reopened.{reopened};
ghost use Rattle.one_thread.specs.StandsFor.{StandsForSome};

use crate::completed_ring::{Completed, CompletedRing};
use crate::flow::Flow;
use crate::future::Future;
use crate::rounds::flows;
use instructions::{Kind, Predictor, Reg};
use one_thread::{
    Leaves, Pipeline, Stage, Station, fetch_at, fetch_known, made_at_let, waiting_half,
};

// What a station has made, or where it stores, if it has completed.
fn value_of(station: &Station) -> Option<u32>
    ensures made { IfSome result (λ v.
        station.now.made ≡ made_by (kind_of station.now.instr.op) v) }
    ensures stage { IfSome result (λ v.
        station.now.stage ≡ stage_by (kind_of station.now.instr.op) v) }
{
    match (station.instr.kind(), station.stage, station.made) {
        (Kind::Stores, Stage::Addr(a), None) => Some(a),
        (Kind::Jumps, Stage::Done, None) => Some(0),
        (Kind::Computes | Kind::Links | Kind::Loads, Stage::Done, made) => made,
        _ => None,
    }
}

// What a station holds in short, if its instruction has completed.
fn completed_of(unit: &Pipeline<'_>, station: &Station) -> Option<Completed>
    requires { IsDecoded unit.now.code.items unit.now.program.now }
    ensures there { IfSome result (λ c.
        instr_at unit.now.program.now c.pc ≡ Some station.now.instr) }
    ensures same { IfSome result (λ c. station_in unit.now.program.now c ≡ station.now) }
    ensures open { IfSome result (λ c. c.leaves ≡ Any) }
{
    let instr = fetch_at(unit.code.as_slice(), station.pc)?;
    if !instr.as_instr().is_same(station.instr.as_instr()) {
        return None;
    }
    if instr.destination(station.half).number() != station.destination.number() {
        return None;
    }
    let value = value_of(station)?;
    Some(Completed {
        pc: station.pc,
        half: station.half,
        leaves: Leaves::Any,
        predicted: station.predicted,
        next: station.next,
        value,
        kept: 0,
    })
}

// The live tenants as a flow, if all have completed.
fn flow_of(unit: &Pipeline<'_>) -> Option<Flow>
    requires unit { StandsForSome unit.now }
    requires goes_on { unit.now.over ≡ None }
    requires two { 2 ≤ unit.now.ring }
    ensures flow { IfSome result (Flows unit.now) }
    ensures same { IfSome result (λ flow. in_order unit.now flow ≡ unit.now) }
    ensures room { IfSome result (λ flow. length flow.ring.completed < unit.now.ring) }
{
    if unit.ring <= unit.window.len() {
        return None;
    }
    let ring = CompletedRing::new(unit.ring, unit.oldest)?;
    let mut flow = Flow {
        ring,
        future: Future::behind(&unit.ahead()),
        half: waiting_half(unit.low),
        accesses: 0,
        last: None,
        held: unit.committed.register(Reg::LO),
    };
    for i in 0..unit.window.len() {
        let station = unit.window.at(i)?;
        let completed = completed_of(unit, &station)?;
        let content = flow.future.operands(&station.instr).b;
        let kept = flow.kept(&station.instr, None, station.half, content);
        let completed = Completed { kept, ..completed };
        let place = flow.ring.station_at(i);
        flow.joins(place, &station.instr, None, completed, content);
    }
    Some(flow)
}

// The station of a completed instruction.
fn station_of(unit: &Pipeline<'_>, completed: &Completed) -> Station
    requires code { IsDecoded unit.now.code.items unit.now.program.now }
    requires there { is_some (instr_at unit.now.program.now completed.now.pc) ≡ true }
    ensures { result ≡ station_in unit.now.program.now completed.now }
{
    let instr = fetch_known(unit.code.as_slice(), completed.pc);
    let (made, stage) = match instr.kind() {
        Kind::Stores => (None, Stage::Addr(completed.value)),
        Kind::Jumps => (None, Stage::Done),
        _ => (Some(completed.value), Stage::Done),
    };
    Station {
        instr: *instr,
        half: completed.half,
        destination: instr.destination(completed.half),
        pc: completed.pc,
        predicted: completed.predicted,
        next: completed.next,
        made,
        stage,
    }
}

// The station at `i`, as it was let, if it is after those that have completed for good.
fn station_at_exit(unit: &Pipeline<'_>, flow: &Flow, from: usize, i: usize) -> Station
    requires code { IsDecoded unit.now.code.items unit.now.program.now }
    requires there { AreThere unit.now.program.now flow.now.ring.completed }
    requires inside { i < length flow.now.ring.completed }
    ensures { slice_get (reopened from (window_of unit.now flow.now)) i ≡ Some result }
{
    let station = station_of(unit, &flow.ring.get(i));
    if i < from {
        return station;
    }
    Station {
        made: made_at_let(station.instr.kind(), station.pc),
        stage: Stage::Open,
        ..station
    }
}

// The registers that the oldest instruction of a flow has found.
fn registers_before(unit: &Pipeline<'_>, flow: &Flow) -> [u32; 34]
    requires code { IsDecoded unit.now.code.items unit.now.program.now }
    requires there { AreThere unit.now.program.now flow.now.ring.completed }
    requires all { length flow.now.future.values ≡ 34 }
    ensures registers { result ≡ before_of unit.now.program.now
        flow.now.ring.completed flow.now.future.values }
    ensures all { length result ≡ 34 }
{
    let mut registers = flow.future.values;
    let mut i = flow.ring.len();
    while 0 < i {
        i -= 1;
        let completed = flow.ring.get(i);
        let instr = fetch_known(unit.code.as_slice(), completed.pc);
        let r = instr.destination(completed.half).number() as usize;
        if r != 0 {
            registers[r] = completed.kept;
        }
    }
    registers
}

// The registers are those that are committed, and the oldest tenant is that of the flow.
fn restore_order(unit: &mut Pipeline<'_>, flow: &Flow)
    requires code { IsDecoded unit.old.code.items unit.old.program.now }
    requires there { AreThere unit.old.program.now flow.now.ring.completed }
    requires all { length flow.now.future.values ≡ 34 }
    ensures { unit.new ≡ in_order unit.old flow.now }
{
    let mut registers = registers_before(unit, flow);
    if unit.low.is_some() {
        registers[Reg::LO.number() as usize] = flow.held;
    }
    unit.committed.restore(&registers);
    unit.oldest = flow.ring.station();
}

// The registers and the window are what a flow leaves, of which this number have completed for good.
fn restores(unit: &mut Pipeline<'_>, flow: &Flow, from: usize)
    requires code { IsDecoded unit.old.code.items unit.old.program.now }
    requires flow { CanRestore (in_order unit.old flow.now) flow.now from }
    ensures { unit.new ≡ restored (in_order unit.old flow.now) flow.now from }
{
    restore_order(unit, flow);
    unit.window.clear();
    for i in 0..flow.ring.len() {
        let station = station_at_exit(unit, flow, from, i);
        unit.window.join(station);
    }
    if let Some(station) = flow.last {
        unit.window.join(station);
    }
}

/// Turns as long as all live tenants have completed and the count has not reached a limit. Answers the count at
/// which to look for that again: what keeps the unit out of it leaves within a ring of instructions.
#[inline(always)]
pub fn stream<P: Predictor>(unit: &mut Pipeline<'_>, predictor: &mut P, limit: u64) -> u64
    requires unit { StandsForSome unit.old }
    ensures unit { StandsForSome unit.new }
    ensures program { unit.new.program ≡ unit.old.program }
    ensures more { unit.old.committed.count ≤ unit.new.committed.count }
    ensures ends { run_from unit.new limit ≡ run_from unit.old limit }
{
    if unit.over.is_some() || unit.ring < 2 || unit.window.resolved() < unit.window.len() {
        return 0;
    }
    stream_on(unit, predictor, limit)
}

// Turns where nothing that is live waits, as `stream` makes them.
#[inline(never)]
fn stream_on<P: Predictor>(unit: &mut Pipeline<'_>, predictor: &mut P, limit: u64) -> u64
    requires unit { StandsForSome unit.old }
    requires goes_on { unit.old.over ≡ None }
    requires two { 2 ≤ unit.old.ring }
    ensures unit { StandsForSome unit.new }
    ensures program { unit.new.program ≡ unit.old.program }
    ensures more { unit.old.committed.count ≤ unit.new.committed.count }
    ensures ends { run_from unit.new limit ≡ run_from unit.old limit }
{
    let Some(mut flow) = flow_of(unit) else {
        return unit.committed.count().saturating_add(unit.ring as u64);
    };
    let from = flows(unit, predictor, &mut flow, limit);
    restores(unit, &flow, from);
    0
}
