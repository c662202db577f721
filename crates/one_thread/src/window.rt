//! The stations of the live tenants, the oldest first.
ghost use Rattle.std.specs.Prelude.{◌≡◌, ◌<◌, ◌≤◌, ◌-◌, [], ◌∷◌, ◌++◌, length, take, drop, slice_get, slice_set, option_copied, false, IfOk, None, Some};
ghost use Rattle.circular_buffer.specs.Buffer.{buffer};
ghost use Rattle.one_thread.specs.Producers.{gives};
ghost use Rattle.one_thread.specs.Notes.{AreSettled, miss_in, settled_at, settled_by};
ghost use Rattle.one_thread.specs.Stages.{FirstMiss, RecoversTo};
ghost use Rattle.one_thread.specs.Window.{accesses as accesses_of, miss_of};

use crate::decoded::access;
use crate::station::{Stage, Station};
use circular_buffer::HeapCircularBuffer;
use instructions::Kind;
use std::alloc::{AllocError, Global};
use std::marker::Model;

/// The place of a miss, and its computed next pc.
#[derive(Clone, Copy)]
pub struct Missed {
    pub at: usize,
    pub next: u32,
}

/// At most 32 stations. It knows of its oldest how many are resolved, so that nobody looks at these again.
#[derive(Drop)]
pub struct Window {
    stations: HeapCircularBuffer<Station>,
    // as many of the oldest are done, stops, or stores with their address
    resolved: usize,
    // no station is a miss unless this is set
    missed: bool,
}

impl Model for Window {
    ghost use Rattle.std.specs.Prelude.{List};
    ghost use Rattle.one_thread.specs.declared.station.Station.{Station};

    ghost Value = { List Station };

    ghost use Rattle.std.specs.Prelude.{◌≡◌};
    ghost use Rattle.one_thread.specs.Notes.{AreNoted};

    ghost view = { λ w. w.stations.items };

    ghost invariant = { λ w. (w.stations.capacity ≡ 32)
        × AreNoted w.missed w.resolved w.stations.items };
}

// A tenant at this stage is done, stops, or is a store with its address.
fn resolves(kind: Kind, stage: Stage) -> bool
    ensures { result ≡ settled_by kind stage }
{
    match stage {
        Stage::Done | Stage::Stops(_) => true,
        Stage::Addr(_) => matches!(kind, Kind::Stores),
        _ => false,
    }
}

// There may be a miss, where a tenant has come to this stage.
fn misses(missed: bool, stage: Stage) -> bool
    ensures { result ≡ false → (missed ≡ false) × (miss_of stage ≡ None) }
{
    match stage {
        Stage::Miss(_) => true,
        _ => missed,
    }
}

// Another station stands at `i`, where one stood.
fn replace(stations: &mut HeapCircularBuffer<Station>, i: usize, station: Station)
    ensures { stations.new ≡ buffer (slice_set stations.old.items i station) stations.old.capacity }
{
    if let Some(tenant) = stations.get_mut(i) {
        *tenant = station;
    }
}

impl Window {
    pub(crate) fn new(alloc: Global) -> Result<Window, AllocError>
        ensures { IfOk result (λ w. w ≡ []) }
    {
        let stations = HeapCircularBuffer::with_capacity(alloc, 32)?;
        Ok(Window {
            stations,
            resolved: 0,
            missed: false,
        })
    }

    pub fn len(&self) -> usize
        ensures value { result ≡ length self.now }
        ensures most { result ≤ 32 }
    {
        self.stations.len()
    }

    /// As many of the oldest are resolved; more may be.
    pub fn resolved(&self) -> usize
        ensures { AreSettled result self.now }
    {
        self.resolved
    }

    /// The tenant at `i` is resolved.
    pub(crate) fn is_resolved(&self, i: usize) -> bool
        ensures { result ≡ settled_at (slice_get self.now i) }
    {
        match self.peek(i) {
            None => false,
            Some(station) => resolves(station.instr.kind(), station.stage),
        }
    }

    /// How many live tenants reach memory.
    pub(crate) fn accesses(&self) -> usize
        ensures { result ≡ accesses_of self.now (length self.now) }
    {
        let mut accesses = 0;
        for i in 0..self.len() {
            if let Some(station) = self.peek(i) {
                accesses += access(&station.instr);
            }
        }
        accesses
    }

    pub fn at(&self, i: usize) -> Option<Station>
        ensures { result ≡ slice_get self.now i }
    {
        self.peek(i).copied()
    }

    /// The tenant at `i`, where there is one.
    #[inline(always)]
    pub(crate) fn peek(&self, i: usize) -> Option<&Station>
        ensures { option_copied result ≡ slice_get self.now i }
    {
        self.stations.get(i)
    }

    /// The first `i` tenants: those that came first, and those after them.
    #[inline(always)]
    pub(crate) fn before(&self, i: usize) -> (&[Station], &[Station])
        requires { i ≤ length self.now }
        ensures { result.0.now ++ result.1.now ≡ take i self.now }
    {
        prove!(i <= self.len());
        let (older, younger) = self.stations.as_slices();
        let cut = i.min(older.len());
        (&older[..cut], &younger[..i - cut])
    }

    /// The youngest tenant.
    #[inline(always)]
    pub(crate) fn last(&self) -> Option<&Station>
        ensures { option_copied result ≡ slice_get self.now (length self.now - 1) }
    {
        self.stations.back()
    }

    // Where the tenant at `i` has to go on, if it is a miss.
    fn next_at(&self, i: usize) -> Option<u32>
        ensures { result ≡ gives miss_in self.now i }
    {
        match self.peek(i)?.stage {
            Stage::Miss(next) => Some(next),
            _ => None,
        }
    }

    /// The oldest miss.
    #[inline(always)]
    pub(crate) fn oldest_miss(&self) -> Option<Missed>
        ensures { FirstMiss self.now result }
    {
        if !self.missed {
            return None;
        }
        for at in self.resolved..self.len() {
            if let Some(next) = self.next_at(at) {
                return Some(Missed { at, next });
            }
        }
        None
    }

    // More of the oldest may be resolved.
    fn resolve(&mut self)
        ensures { self.new ≡ self.old }
    {
        let len = self.len();
        let mut resolved = self.resolved;
        while resolved < len && self.is_resolved(resolved) {
            resolved += 1;
        }
        self.resolved = resolved;
    }

    /// The tenant at `i` has come further.
    pub(crate) fn put(&mut self, i: usize, station: Station)
        ensures { self.new ≡ slice_set self.old i station }
    {
        self.missed = misses(self.missed, station.stage);
        self.resolved = self.resolved.min(i);
        replace(&mut self.stations, i, station);
        self.resolve();
    }

    /// All tenants after the oldest miss leave, and it goes on where it has to.
    pub(crate) fn recover(&mut self, miss: Missed)
        requires { FirstMiss self.old (Some miss) }
        ensures { RecoversTo self.old self.new }
    {
        prove!(miss.at < self.len());
        let Some(station) = self.at(miss.at) else {
            return;
        };
        self.stations.truncate_back(miss.at);
        self.missed = false;
        self.join(Station {
            stage: Stage::Done,
            next: miss.next,
            ..station
        });
    }

    /// A tenant joins after the youngest.
    pub fn join(&mut self, station: Station)
        requires { length self.old < 32 }
        ensures { self.new ≡ self.old ++ station ∷ [] }
    {
        self.missed = misses(self.missed, station.stage);
        match self.stations.try_push_back(station) {
            Ok(()) => {}
            Err(_) => {}
        }
        self.resolve();
    }

    /// Takes all out.
    pub fn clear(&mut self)
        ensures { self.new ≡ [] }
    {
        self.stations.clear();
        self.resolved = 0;
        self.missed = false;
    }

    /// Takes the oldest out.
    #[inline(always)]
    pub(crate) fn shift(&mut self)
        ensures { self.new ≡ drop 1 self.old }
    {
        let _ = self.stations.pop_front();
        self.resolved = self.resolved.saturating_sub(1);
    }
}
