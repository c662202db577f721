//! The turns of the commit thread: in each one commit and one refresh.
ghost use Rattle.std.specs.Prelude.{◌≡◌, ◌+◌, ◌<◌, None, true};
ghost use Rattle.back.specs.Backs.{IsSameBack, back_state};
ghost use Rattle.counts.specs.Reads.{WasTotal};
ghost use Rattle.counts.specs.Totals.{tallied};
ghost use Rattle.hints.specs.Hinted.{IsEndOf};
ghost use Rattle.committing.specs.Committing.{HintsLoaded};

use super::{Committer, PATIENCE};
use crate::ends::Refusal;
use back::{Commit, Mark, OfProgram, Refresh};
use counts::{CountSeat, Tally, Total};
use hints::{Hinter, Ring};
use instructions::Memory;
use std::snapshot::Snapshot;
use std::sync::Wait;
use workers::{Backoff, Bounds, Gate, TermShared, hint_each};

// How many instructions the commit thread commits until it shows again.
const SHOWN_EACH: u64 = 64;

// Passes a tally to the gate. Its caller owes that the retirements are those of the snapshot that was shown, and that each
// total is what it was at a moment since `before`.
fn pass_tally<G: Gate>(
    gate: &G,
    shown: &Mark,
    before: Snapshot<CountSeat>,
    count: &CountSeat,
    tally: &Tally,
)
    requires retires { tally.now.retires ≡ shown.now.n }
    requires totals { (total : Total) →
        WasTotal before.value.seen count.now.seen total (tallied tally.now total) }
{
    let _moments = (before, count);
    gate.counted(tally);
}

impl<K: OfProgram + Bounds + Ring> Committer<K> {
    // Shows the state, and passes the tally until then to the gate.
    fn show<G: Gate, R: Wait>(&mut self, shared: &TermShared<'_, K, G, R>) -> Result<(), Memory>
        ensures back { IsSameBack self.old.back (record self.new.back
            { shown = self.old.back.shown }) }
        ensures turns { self.new.turns ≡ self.old.turns }
    {
        let mark = self.back.show(shared.wait)?;
        let before = Snapshot::of(&self.count);
        let tally = shared.state.counts.read(&mut self.count);
        pass_tally(shared.gate, &mark, before, &self.count, &tally);
        Ok(())
    }

    // Commits once, counts an instruction that has retired, and shows the state after each `SHOWN_EACH` of these.
    // Answers whether it has committed anything, or None where the program has ended.
    fn commit<G: Gate, R: Wait>(
        &mut self,
        shared: &TermShared<'_, K, G, R>,
    ) -> Result<Option<bool>, Memory>
        requires core { self.old.back.core ≡ shared.now.core.now }
        requires room { (back_state self.old.back).count < (K.config).limit }
        requires turn { (back_state self.old.back).count + (self.old.turns).left
            < (self.old.turns).all }
        ensures core { self.new.back.core ≡ shared.now.core.now }
        ensures turns { self.new.turns ≡ self.old.turns }
    {
        match self.back.commit(shared.core) {
            Commit::Ended(_) => Ok(None),
            Commit::Retired { n, .. } => {
                shared.state.counts.add(&mut self.count, Total::Retires, 1);
                if n % SHOWN_EACH == 0 {
                    self.show(shared)?;
                    shared.state.wake_watchers();
                }
                Ok(Some(true))
            }
            // its instruction counts with its second half
            Commit::Half { .. } => Ok(Some(true)),
            Commit::NotDone | Commit::Empty => Ok(Some(false)),
        }
    }

    // Refreshes once, and hints the stations that a load woke. False where nothing was loaded.
    fn refresh<G, R: Wait>(&mut self, shared: &TermShared<'_, K, G, R>, hinter: &mut Hinter) -> bool
        requires core { self.old.back.core ≡ shared.now.core.now }
        requires hinter { IsEndOf shared.now.state.now.hints hinter.old }
        ensures core { self.new.back.core ≡ shared.now.core.now }
        ensures turns { self.new.turns ≡ self.old.turns }
        ensures hinter { IsEndOf shared.now.state.now.hints hinter.new }
        ensures hinted { HintsLoaded shared.now.core.now.sizes.ring self.new.back.woken result
            hinter.old hinter.new }
    {
        let Refresh::Loaded { .. } = self.back.refresh(shared.core) else {
            return false;
        };
        shared.state.counts.add(&mut self.count, Total::Loads, 1);
        let woken = self.back.woken();
        hint_each(
            shared.wait,
            &shared.state.hints,
            hinter,
            shared.core.ring(),
            woken,
        );
        true
    }

    // Takes turns, in each of which it commits and refreshes once. True where the run is over: the program has ended, the
    // limit is reached or no turn is left; and false where the core is to be renewed. A refused snapshot is want of memory.
    fn take_turns<G: Gate, R: Wait>(
        &mut self,
        shared: &TermShared<'_, K, G, R>,
    ) -> Result<bool, Memory>
        requires core { self.old.back.core ≡ shared.now.core.now }
        ensures core { self.new.back.core ≡ shared.now.core.now }
    {
        let mut hinter = shared.state.hints.hinter();
        let mut backoff = Backoff::after(PATIENCE);
        while self.turns.take() {
            if self.limit as u64 <= self.back.n() {
                return Ok(true);
            }
            let Some(has_committed) = self.commit(shared)? else {
                return Ok(true);
            };
            if self.refresh(shared, &mut hinter) || has_committed {
                backoff.reset();
            } else if shared.state.has_term_ended() {
                return Ok(false);
            } else {
                backoff.snooze();
            }
        }
        Ok(true)
    }

    /// Commits at the core of a term. True where the core is to be renewed, with which the run goes on. Where the run is
    /// over the last state is shown.
    pub fn work<G: Gate, R: Wait>(&mut self, shared: &TermShared<'_, K, G, R>) -> bool
        requires core { self.old.back.core ≡ shared.now.core.now }
        ensures core { self.new.back.core ≡ shared.now.core.now }
        ensures goes_on { result ≡ true → self.new.back.ended ≡ None }
    {
        self.wanting = Some(Refusal::Memory);
        let Ok(is_over) = self.take_turns(shared) else {
            return false;
        };
        if !is_over && self.back.ended().is_none() {
            return true;
        }
        if self.show(shared).is_ok() {
            self.wanting = None;
        }
        false
    }
}
