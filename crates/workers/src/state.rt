//! The state that the threads of one run share.
ghost use Rattle.std.specs.Prelude.{◌≡◌, ◌≤◌, IfOk, length};

use crate::bounds::Bounds;
use crate::turns::Turns;
use counts::Counts;
use hints::{Hints, Ring};
use instructions::Memory;
use std::alloc::Global;
use std::sync::atomic::Ordering::{Acquire, Release};
use std::sync::atomic::{AtomicBool, AtomicU64};
use std::sync::{Mutex, Wait};

/// The state of a run, which outlives a renewal of the core: the totals, the hints, the turns of each unit, and whether
/// threads are to end.
#[derive(Drop)]
pub struct RunState<K: Bounds + Ring> {
    pub counts: Counts,
    pub hints: Hints<K>,
    pub units: u32,
    pub turns: u32,
    run_ended: AtomicBool,
    // tags are spent and nobody is live: the core is to be renewed
    term_ended: AtomicBool,
    // how often there was something new to see: a snapshot, or the end
    news: AtomicU64,
    // units up to this number are active, and those beyond it are parked
    active: AtomicU64,
    // at most this number are active at once, where there is work for them
    most_active: AtomicU64,
    // the turns of each unit, which its threads take one term after another
    unit_turns: Vec<Mutex<Turns>>,
    pub ghost counts_are: { counts ≡ K.counts },
    pub ghost ring: { hints.ring ≡ (K.config).ring },
    ghost each: { length unit_turns.items ≡ units },
}

// The turns of n units, none of which has taken one.
fn unit_turns(alloc: Global, units: u32, turns: u32) -> Result<Vec<Mutex<Turns>>, Memory>
    ensures { IfOk result (λ all. length all.items ≡ units) }
{
    let mut all = Vec::new(alloc);
    for _ in 0..units {
        all.push(Mutex::new(Turns::new(turns)))?;
    }
    Ok(all)
}

impl<K: Bounds + Ring> RunState<K> {
    ghost use Rattle.std.specs.Prelude.{◌≡◌, IfOk};

    /// The state of a run before its first term: no unit is active, and nothing has ended.
    pub fn new(
        alloc: Global,
        counts: Counts,
        hints: Hints<K>,
        units: u32,
        turns: u32,
    ) -> Result<Self, Memory>
        requires counts { counts ≡ K.counts }
        requires ring { hints.ring ≡ (K.config).ring }
        ensures { IfOk result (λ state. state.hints ≡ hints) }
    {
        let unit_turns = unit_turns(alloc, units, turns)?;
        Ok(RunState {
            counts,
            hints,
            units,
            turns,
            run_ended: AtomicBool::new(false),
            term_ended: AtomicBool::new(false),
            news: AtomicU64::new(0),
            active: AtomicU64::new(0),
            most_active: AtomicU64::new(0),
            unit_turns,
        })
    }

    /// Begins another term. One unit is active, and where there is work for more of them `most_active` at once.
    pub fn begin_term(&self, most_active: u64) {
        self.term_ended.store(false, Release);
        self.most_active.store(most_active, Release);
        self.active.store(1, Release);
    }

    /// Ends the term for its threads: the core is to be renewed.
    pub fn end_term(&self) {
        self.term_ended.store(true, Release);
        self.activate();
    }

    /// Whether the core is to be renewed.
    pub fn has_term_ended(&self) -> bool {
        self.term_ended.load(Acquire)
    }

    /// Ends the run for all its threads.
    pub fn end_run(&self) {
        self.run_ended.store(true, Release);
        self.wake_watchers();
        self.activate();
    }

    /// Whether all threads are to end.
    pub fn has_run_ended(&self) -> bool {
        self.run_ended.load(Acquire)
    }

    /// Whether the threads of the term are to end.
    pub(crate) fn is_term_over(&self) -> bool {
        self.has_run_ended() || self.has_term_ended()
    }

    /// The turns of a unit, which stay here from term to term: its thread takes them where they are.
    pub(crate) fn turns_of(&self, unit: u32) -> &Mutex<Turns>
        requires first { 1 ≤ unit }
        requires last { unit ≤ self.now.units }
    {
        &self.unit_turns[unit as usize - 1]
    }

    /// Wakes the threads that wait for something new to see.
    pub fn wake_watchers(&self) {
        self.news.fetch_add(1, Release);
        self.news.wake_all();
    }

    /// How often there was something new to see.
    pub fn news(&self) -> u64 {
        self.news.load(Acquire)
    }

    /// Waits until there is more that is new than this. The call may also return for no reason.
    pub fn wait_for_news<R: Wait>(&self, wait: &R, news: u64) {
        self.news.park(wait, (news & 0xffff_ffff) as u32);
    }

    /// Activates one unit more.
    pub(crate) fn activate(&self) {
        self.active.fetch_add(1, Release);
        self.active.wake_all();
    }

    /// Activates one unit more, where that is not too many at once.
    pub(crate) fn activate_for_work(&self) {
        if self.active.load(Acquire) < self.most_active.load(Acquire) {
            self.activate();
        }
    }

    /// Parks the unit until it is active, which takes no turn, or the threads of the term are to end.
    pub(crate) fn wait_until_active<R: Wait>(&self, wait: &R, unit: u32) {
        for _ in wait.forever() {
            let active = self.active.load(Acquire);
            if unit as u64 <= active || self.is_term_over() {
                return;
            }
            self.active.park(wait, (active & 0xffff_ffff) as u32);
        }
    }
}
