//! Dispatch.
ghost use Rattle.std.specs.Prelude.{◌≡◌, ◌≢◌, ◌<◌, ◌≤◌, ◌+◌, ◌*◌, ◌%◌, ◌^◌, ◌==◌, ◌++◌, ◌∷◌, [], IfOk, IfErr, IfSome, IsTrue, OnOk, OnErr, Some, length, suc};
ghost use Rattle.instructions.specs.Instruction.{first_of, fixed_next as fixed_next_by, second_of};
ghost use Rattle.instructions.specs.Programs.{address, instr_of};
ghost use Rattle.inorder.specs.Steps.{MayLet, MaySupply, new_tenant};
ghost use Rattle.inorder.specs.Tenants.{made_at_let as made_at_let_by};
ghost use Rattle.inorder.specs.Unit.{creator as creator_by, front_half, front_pc, how_many, next_station, next_tag, recent};
ghost use Rattle.replay.specs.Dropping.{ComeLate, WaitsForKept};
ghost use Rattle.replay.specs.Lets.{HasNoSupply, HasRoom, IsFit, IsNoLet, source_of, sizes_of, supply_of, unit_of};
ghost use Rattle.replay.specs.Shown.{shown, tenant_of};

use crate::counting::Test;
use crate::supply::{Supplies, let_operand};
use crate::tenant::{Fate, Standing, Tenant};
use crate::unit::Unit;
use inorder::history::Source;
use instructions::{Instr, Kind, Program, pc_plus_4};
use std::alloc::AllocError;

/// Why an instruction may not be let.
#[derive(Clone, Copy)]
pub enum NoLet {
    /// All stations are in use.
    RingFull,
    /// As many loads and stores are in flight as the queue takes.
    QueueFull,
    /// There is no such instruction.
    NoInstruction,
    /// The path goes on at this pc.
    OtherPc(u32),
    /// The instruction goes on at this pc.
    OtherNext(u32),
    /// The source has no value, and cannot wait for its creator.
    NoSupply(Source),
}

// What an instruction at `pc` has made from the start.
fn made_at_let(kind: Kind, pc: u32) -> Option<u32>
    ensures { result ≡ made_at_let_by kind pc }
{
    match kind {
        Kind::Links => Some(pc_plus_4(pc)),
        _ => None,
    }
}

fn is_at(pc: u32, index: usize) -> bool
    requires { index < 16384 }
    ensures yes { IsTrue result → pc ≡ address index }
    ensures no { pc ≡ address index → IsTrue result }
{
    pc == Program::START + 4 * index as u32
}

impl<'a> Unit<'a> {
    // The station of a new tenant.
    fn next_station(&self) -> usize
        requires { IsFit self.now }
        ensures { result ≡ next_station (sizes_of self.now) (recent (unit_of self.now)) }
    {
        self.count(Test::IsOnPath) % self.ring
    }

    // The tag of a new tenant of a station.
    fn next_tag(&self, station: usize) -> u64
        requires fit { IsFit self.now }
        requires station { station ≡ next_station (sizes_of self.now) (recent (unit_of self.now)) }
        requires known { self.now.uses.from ≤ station }
        ensures { result ≡ next_tag (sizes_of self.now) (recent (unit_of self.now)) }
    {
        self.first_tag + self.uses_of(station)
    }

    // How many tenants a station has had.
    fn uses_of(&self, station: usize) -> u64
        requires small { length self.now.tenants.items < 2 ^ 62 }
        requires known { self.now.uses.from ≤ station }
        ensures value { result ≡ how_many (λ t. t.station == station) (shown self.now.tenants.items) }
        ensures small { result < 2 ^ 62 }
    {
        match self.uses.get(station) {
            Some(uses) => uses,
            None => 0,
        }
    }

    // One tenant more.
    fn add(&mut self, tenant: Tenant) -> Result<(), AllocError>
        requires small { length self.old.tenants.items < 2 ^ 62 }
        requires known { self.old.uses.from ≤ tenant.station }
        requires waits { WaitsForKept self.old.tenants.items self.old.tenants.from tenant }
        ensures ok { OnOk result (self.new.tenants.items ≡ self.old.tenants.items ++ tenant ∷ []) }
        ensures err { OnErr result (self.new.tenants.items ≡ self.old.tenants.items) }
        ensures program { self.new.program ≡ self.old.program }
        ensures sizes { sizes_of self.new ≡ sizes_of self.old }
    {
        self.know(tenant.station)?;
        let uses = self.uses_of(tenant.station);
        self.tenants.push(tenant)?;
        self.uses.set(tenant.station, uses + 1);
        Ok(())
    }

    // A station has its count.
    fn know(&mut self, station: usize) -> Result<(), AllocError>
        ensures from { self.new.uses.from ≡ self.old.uses.from }
        ensures there { OnOk result (station < length self.new.uses.items) }
        ensures tenants { self.new.tenants ≡ self.old.tenants }
        ensures settled { self.new.settled ≡ self.old.settled }
        ensures program { self.new.program ≡ self.old.program }
        ensures sizes { sizes_of self.new ≡ sizes_of self.old }
    {
        let Some(end) = station.checked_add(1) else {
            return Err(AllocError);
        };
        for _n in self.uses.len()..end {
            self.uses.push(0)?;
        }
        Ok(())
    }

    // There is room for an instruction, and the path goes on with it.
    fn has_room(&self, index: usize, predicted: u32) -> Result<(), NoLet>
        requires { IsFit self.now }
        ensures ok { OnOk result (HasRoom self.now index predicted) }
        ensures err { IfErr result (IsNoLet self.now index predicted) }
    {
        if self.program.len() <= index {
            return Err(NoLet::NoInstruction);
        }
        let front = self.front();
        if !is_at(front.pc, index) {
            return Err(NoLet::OtherPc(front.pc));
        }
        if self.ring <= self.count(Test::IsLive) {
            return Err(NoLet::RingFull);
        }
        let instr = self.program.instr(index);
        if instr.op().is_access() && self.queue <= self.count(Test::IsLiveAccess) {
            return Err(NoLet::QueueFull);
        }
        match instr.fixed_next(front.half, front.pc) {
            Some(fixed) if fixed != predicted => Err(NoLet::OtherNext(fixed)),
            _ => Ok(()),
        }
    }

    // How the sources of a new tenant may be supplied.
    fn supplies(&self, instr: &Instr, station: usize) -> Result<Supplies, Source>
        ensures first { IfOk result (λ s. MaySupply self.now.program.now (unit_of self.now) station
            (creator_by self.now.program.now (shown self.now.tenants.items) (first_of instr.now))
            (supply_of s.first)) }
        ensures second { IfOk result (λ s. MaySupply self.now.program.now (unit_of self.now) station
            (creator_by self.now.program.now (shown self.now.tenants.items) (second_of instr.now))
            (supply_of s.second)) }
        ensures late { IfOk result
            (ComeLate self.now.program.now self.now.tenants.items self.now.settled.upto instr.now) }
        ensures err { IfErr result (λ k. HasNoSupply self.now.program.now (unit_of self.now) station
            (creator_by self.now.program.now
            (shown self.now.tenants.items) (source_of k instr.now))) }
    {
        let Some(first) = self.supply(instr.first(), station) else {
            return Err(Source::First);
        };
        let Some(second) = self.supply(instr.second(), station) else {
            return Err(Source::Second);
        };
        Ok(Supplies { first, second })
    }

    // The tenant that a let adds.
    fn newcomer(&self, index: usize, predicted: u32, station: usize, supplies: Supplies) -> Tenant
        requires fit { IsFit self.now }
        requires inside { index < length self.now.program.now.code }
        requires station { station ≡ next_station (sizes_of self.now) (recent (unit_of self.now)) }
        requires known { self.now.uses.from ≤ station }
        ensures { tenant_of result ≡
            new_tenant self.now.program.now (sizes_of self.now) (unit_of self.now)
            index predicted (supply_of supplies.first) (supply_of supplies.second) }
    {
        let instr = self.program.instr(index);
        let front = self.front();
        Tenant {
            station,
            tag: self.next_tag(station),
            index,
            half: front.half,
            pc: front.pc,
            predicted,
            next: predicted,
            first: let_operand(self.creator(instr.first()), supplies.first),
            second: let_operand(self.creator(instr.second()), supplies.second),
            made: made_at_let(instr.op().kind(), front.pc),
            fate: Fate::Open,
            standing: Standing::Live,
        }
    }

    /// An instruction enters a station, if it may. The answer is how its sources were supplied.
    pub fn enter(
        &mut self,
        index: usize,
        predicted: u32,
    ) -> Result<Result<Supplies, NoLet>, AllocError>
        requires { IsFit self.old }
        ensures ok { IfOk result (λ answer. IfOk answer (λ s.
            MayLet self.old.program.now (sizes_of self.old) (unit_of self.old) index predicted
            (supply_of s.first) (supply_of s.second))) }
        ensures done { IfOk result (λ answer. IfOk answer (λ s. shown self.new.tenants.items ≡
            new_tenant self.old.program.now (sizes_of self.old) (unit_of self.old) index predicted
            (supply_of s.first) (supply_of s.second) ∷ shown self.old.tenants.items)) }
        ensures err { IfOk result (λ answer. IfErr answer (IsNoLet self.old index predicted)) }
        ensures same { IfOk result (λ answer. OnErr answer (self.new ≡ self.old)) }
        ensures program { self.new.program ≡ self.old.program }
        ensures sizes { sizes_of self.new ≡ sizes_of self.old }
        ensures longer { length self.new.tenants.items ≤ length self.old.tenants.items + 1 }
        ensures one { IfOk result (λ answer. IfOk answer
            (λ s. length self.new.tenants.items ≡ suc (length self.old.tenants.items))) }
    {
        match self.has_room(index, predicted) {
            Err(reason) => return Ok(Err(reason)),
            Ok(()) => {}
        }
        let station = self.next_station();
        let instr = *self.program.instr(index);
        match self.supplies(&instr, station) {
            Err(k) => Ok(Err(NoLet::NoSupply(k))),
            Ok(supplies) => {
                if station < self.uses.first() {
                    return Err(AllocError);
                }
                let tenant = self.newcomer(index, predicted, station, supplies);
                self.add(tenant)?;
                self.forget();
                Ok(Ok(supplies))
            }
        }
    }
}
