//! Retirement and recovery.
ghost use Rattle.std.specs.Prelude.{◌≡◌, ◌⊎◌, ◌<◌, ℕ, IfErr, IfOk, IfSome, OnOk, Some, [], ◌∷◌};
ghost use Rattle.std.specs.List.{AllByRecursion};
ghost use Rattle.events.specs.Denied.{DeniesRetire, DeniesSquash, IsOfAct};
ghost use Rattle.events.specs.Following.{Follows};
ghost use Rattle.events.specs.Told.{Confirms, IsRecover, IsRetiring, IsSquash, IsSquashAfter, IsSquashing, Leaves, Only, Recovers, Refuses, Retires, Squashes, SquashesOne};
ghost use Rattle.replay.specs.declared.step.Step.TheVariants.{On};
ghost use Rattle.replay.specs.declared.acting.Deed.TheVariants.{Confirm, Mend};

use crate::judge::Judge;
use crate::why::Why;
use replay::{Deed, Fate};

impl<'a> Judge<'a> {
    /// A misprediction is mended before it retires, where no younger one is in flight.
    fn mend_late(&mut self, who: usize)
        ensures { Follows self.old.unit [] self.new.unit }
    {
        match self.unit.tenant(who).map(|t| t.fate) {
            Some(Fate::Miss(_)) => self.mend_unsaid(who),
            _ => {}
        }
    }

    // What the oldest has guessed is confirmed before it retires.
    fn confirm_late(&mut self, who: usize) -> Result<(), Why>
        ensures ok { OnOk result (Confirms self.old.unit who self.new.unit) }
        ensures err { IfErr result (λ why. Refuses self.old.unit (Only (On who Confirm)) why self.new.unit) }
        ensures denied { IfErr result IsOfAct }
    {
        match self.unit.tenant(who).map(|t| t.fate) {
            Some(Fate::Guessed(_)) if self.unit.live_before(who).is_none() => {
                self.act(who, Deed::Confirm)
            }
            _ => Ok(()),
        }
    }

    // A misprediction is mended, and a guess is confirmed.
    fn ready(&mut self, who: usize) -> Result<(), Why>
        ensures ok { OnOk result (Confirms self.old.unit who self.new.unit) }
        ensures err { IfErr result (λ why. Refuses self.old.unit (IsRetiring (Some who)) why self.new.unit) }
        ensures denied { IfErr result IsOfAct }
    {
        self.mend_late(who);
        self.confirm_late(who)
    }

    // Retires a tenant that may be a known misprediction or a guess.
    fn leave(&mut self, who: usize) -> Result<(), Why>
        ensures ok { OnOk result (Retires self.old.unit (Some who) self.new.unit) }
        ensures err { IfErr result (λ why. Refuses self.old.unit (IsRetiring (Some who)) why self.new.unit) }
        ensures denied { IfErr result IsOfAct }
    {
        self.ready(who)?;
        self.act(who, Deed::Retire)
    }

    /// The oldest retires, with the value that is said.
    pub(crate) fn retire(&mut self, who: Option<usize>, said: Option<u32>) -> Result<(), Why>
        ensures ok { OnOk result (Retires self.old.unit who self.new.unit) }
        ensures value { OnOk result (IfSome said (Leaves self.old.unit who self.new.unit)) }
        ensures err { IfErr result (λ why. Refuses self.old.unit (IsRetiring who) why self.new.unit) }
        ensures denied { IfErr result (DeniesRetire self.old.unit who said self.new.unit) }
    {
        let Some(who) = who.or(self.oldest()) else {
            return Err(Why::Nobody);
        };
        match self.leave(who) {
            Ok(()) => self.has_left(who, said),
            Err(why) => Err(why),
        }
    }

    // How a tenant is squashed: without a misprediction before it, where that is allowed.
    fn squashing(&self, who: usize) -> Deed
        ensures { IsSquashing result }
    {
        if self.flushes && self.unit.miss_before(who).is_none() {
            Deed::Flush
        } else {
            Deed::Squash
        }
    }

    /// The youngest is squashed.
    pub(crate) fn squash(&mut self, who: Option<usize>) -> Result<(), Why>
        ensures ok { OnOk result (Squashes self.old.unit who self.new.unit) }
        ensures err { IfErr result (λ why. Refuses self.old.unit (λ ss. (ss ≡ []) ⊎ IsSquash who ss) why self.new.unit) }
        ensures denied { IfErr result (DeniesSquash who) }
    {
        let Some(who) = who.or(self.youngest()) else {
            return Err(Why::Nobody);
        };
        self.act(who, self.squashing(who))
    }

    /// A misprediction is mended.
    pub(crate) fn mend(&mut self, who: usize) -> Result<(), Why>
        ensures ok { OnOk result (Follows self.old.unit (On who Mend ∷ []) self.new.unit) }
        ensures err { IfErr result (λ why. Refuses self.old.unit (Only (On who Mend)) why self.new.unit) }
        ensures denied { IfErr result IsOfAct }
    {
        self.act(who, Deed::Mend)
    }

    // A tenant after another one is squashed.
    fn squash_after(&mut self, who: usize, youngest: usize) -> Result<(), Why>
        requires { who < youngest }
        ensures ok { OnOk result (SquashesOne self.old.unit who self.new.unit) }
        ensures err { IfErr result (λ why. Refuses self.old.unit (AllByRecursion (IsSquashAfter who)) why self.new.unit) }
        ensures denied { IfErr result IsOfAct }
    {
        self.act(youngest, Deed::Squash)
    }

    // The youngest is squashed, where it is younger than a tenant; whether there was one.
    fn squash_younger(&mut self, who: usize) -> Result<bool, Why>
        ensures ok { IfOk result (λ _. SquashesOne self.old.unit who self.new.unit) }
        ensures err { IfErr result (λ why. Refuses self.old.unit (AllByRecursion (IsSquashAfter who)) why self.new.unit) }
        ensures denied { IfErr result IsOfAct }
    {
        match self.youngest() {
            Some(youngest) if who < youngest => {
                self.squash_after(who, youngest)?;
                Ok(true)
            }
            _ => Ok(false),
        }
    }

    // All younger ones are squashed.
    fn squash_all(&mut self, who: usize) -> Result<(), Why>
        ensures ok { OnOk result (SquashesOne self.old.unit who self.new.unit) }
        ensures err { IfErr result (λ why. Refuses self.old.unit (AllByRecursion (IsSquashAfter who)) why self.new.unit) }
        ensures denied { IfErr result IsOfAct }
    {
        for _turn in 0..self.unit.tenants.len() {
            let more = match self.squash_younger(who) {
                Ok(more) => more,
                Err(why) => return Err(why),
            };
            if !more {
                return Ok(());
            }
        }
        Ok(())
    }

    /// All younger ones are squashed, and the misprediction is mended.
    pub(crate) fn recover(&mut self, who: usize) -> Result<(), Why>
        ensures ok { OnOk result (Recovers self.old.unit who self.new.unit) }
        ensures err { IfErr result (λ why. Refuses self.old.unit (λ ss. AllByRecursion (IsSquashAfter who) ss ⊎ IsRecover who ss) why self.new.unit) }
        ensures denied { IfErr result IsOfAct }
    {
        match self.squash_all(who) {
            Ok(()) => self.mend(who),
            Err(why) => Err(why),
        }
    }
}
