//! Execution.
ghost use Rattle.std.specs.Prelude.{◌≡◌, ◌⊎◌, ℕ, IfErr, IfSome, OnOk, List, [], ◌∷◌};
ghost use Rattle.events.specs.Denied.{DeniesOutcome, DeniesRead, IsOfAct};
ghost use Rattle.events.specs.Following.{Follows};
ghost use Rattle.events.specs.Told.{AreExecution, Executes, HasOutcome, IsExecution, Only, Reads, Refuses};
ghost use Rattle.replay.specs.declared.step.Step.TheVariants.{On};
ghost use Rattle.replay.specs.declared.acting.Deed.TheVariants.{Claim, Finish, Load};

use crate::judge::Judge;
use crate::stated::is_value;
use crate::why::Why;
use instructions::Kind;
use replay::{Deed, Fate};

impl<'a> Judge<'a> {
    /// Its execution begins.
    pub(crate) fn begin(&mut self, who: usize) -> Result<(), Why>
        ensures ok { OnOk result (Follows self.old.unit (On who Claim ∷ []) self.new.unit) }
        ensures err { IfErr result (λ why. Refuses self.old.unit (Only (On who Claim)) why self.new.unit) }
        ensures denied { IfErr result IsOfAct }
    {
        self.act(who, Deed::Claim)
    }

    // Its execution ends, and its result is delivered.
    fn finish(&mut self, who: usize) -> Result<(), Why>
        ensures ok { OnOk result (Follows self.old.unit (On who Finish ∷ []) self.new.unit) }
        ensures err { IfErr result (λ why. Refuses self.old.unit (Only (On who Finish)) why self.new.unit) }
        ensures denied { IfErr result IsOfAct }
    {
        self.act(who, Deed::Finish)
    }

    /// Its execution ends with the outcome that is said.
    pub(crate) fn end(&mut self, who: usize, said: Option<u32>) -> Result<(), Why>
        ensures ok { OnOk result (Follows self.old.unit (On who Finish ∷ []) self.new.unit) }
        ensures value { OnOk result (IfSome said (HasOutcome self.new.unit.tenants.items who)) }
        ensures err { IfErr result (λ why. Refuses self.old.unit (Only (On who Finish)) why self.new.unit) }
        ensures denied { IfErr result (DeniesOutcome self.new.unit.tenants.items who said) }
    {
        self.finish(who)?;
        self.has_outcome(who, said)
    }

    fn begin_if_open(&mut self, who: usize) -> Result<(), Why>
        ensures ok { OnOk result (Executes self.old.unit who self.new.unit) }
        ensures err { IfErr result (λ why. Refuses self.old.unit (AreExecution who) why self.new.unit) }
        ensures denied { IfErr result IsOfAct }
    {
        match self.unit.tenant(who).map(|t| t.fate) {
            Some(Fate::Open) => self.begin(who),
            _ => Ok(()),
        }
    }

    /// Its execution begins, if it has not, and ends with the outcome that is said.
    pub(crate) fn execute(&mut self, who: usize, said: Option<u32>) -> Result<(), Why>
        ensures ok { OnOk result (Executes self.old.unit who self.new.unit) }
        ensures value { OnOk result (IfSome said (HasOutcome self.new.unit.tenants.items who)) }
        ensures err { IfErr result (λ why. Refuses self.old.unit (AreExecution who) why self.new.unit) }
        ensures denied { IfErr result (DeniesOutcome self.new.unit.tenants.items who said) }
    {
        self.begin_if_open(who)?;
        self.end(who, said)
    }

    /// The load could have its value now.
    pub(crate) fn read(&self, who: usize, said: Option<u32>) -> Result<(), Why>
        ensures ok { OnOk result (Reads self.now.unit who said) }
        ensures err { IfErr result (λ why. Refuses self.now.unit (λ ss. (ss ≡ []) ⊎ Only (On who Load) ss) why self.now.unit) }
        ensures denied { IfErr result (DeniesRead self.now.unit who said) }
    {
        match self.unit.read(who) {
            Ok(value) => is_value(who, Some(value), said),
            Err(refusal) => Err(Why::Act(who, Deed::Load, refusal)),
        }
    }

    // How a load gets its value: a stated one that it has not now is a guess, where loads guess.
    fn loading(&self, who: usize, said: Option<u32>) -> Deed
        ensures { IsExecution who (On who result) }
    {
        match said {
            Some(value) if self.guesses && self.unit.read(who).ok() != Some(value) => {
                Deed::Guess(value)
            }
            _ => Deed::Load,
        }
    }

    // The load has its value.
    fn take_value(&mut self, who: usize, said: Option<u32>) -> Result<(), Why>
        ensures ok { OnOk result (Executes self.old.unit who self.new.unit) }
        ensures err { IfErr result (λ why. Refuses self.old.unit (AreExecution who) why self.new.unit) }
        ensures denied { IfErr result IsOfAct }
    {
        self.act(who, self.loading(who, said))
    }

    /// The load has its value, which is delivered.
    pub(crate) fn load(&mut self, who: usize, said: Option<u32>) -> Result<(), Why>
        ensures ok { OnOk result (Executes self.old.unit who self.new.unit) }
        ensures value { OnOk result (IfSome said (HasOutcome self.new.unit.tenants.items who)) }
        ensures err { IfErr result (λ why. Refuses self.old.unit (AreExecution who) why self.new.unit) }
        ensures denied { IfErr result (DeniesOutcome self.new.unit.tenants.items who said) }
    {
        self.take_value(who, said)?;
        self.has_outcome(who, said)
    }

    /// All that is left of its execution.
    pub(crate) fn complete(&mut self, who: usize, said: Option<u32>) -> Result<(), Why>
        ensures ok { OnOk result (Executes self.old.unit who self.new.unit) }
        ensures value { OnOk result (IfSome said (HasOutcome self.new.unit.tenants.items who)) }
        ensures err { IfErr result (λ why. Refuses self.old.unit (AreExecution who) why self.new.unit) }
        ensures denied { IfErr result (DeniesOutcome self.new.unit.tenants.items who said) }
    {
        self.begin_if_open(who)?;
        let Some(tenant) = self.unit.tenant(who) else {
            return self.end(who, said);
        };
        match (tenant.fate, self.unit.kind(&tenant)) {
            (Fate::Addr(_), Kind::Loads) => self.load(who, said),
            (_, Kind::Loads) => self.complete_load(who, said),
            _ => self.end(who, said),
        }
    }

    // The execution of a load ends, with its address or a stop.
    fn compute(&mut self, who: usize) -> Result<(), Why>
        ensures ok { OnOk result (Executes self.old.unit who self.new.unit) }
        ensures err { IfErr result (λ why. Refuses self.old.unit (AreExecution who) why self.new.unit) }
        ensures denied { IfErr result IsOfAct }
    {
        self.finish(who)
    }

    // The execution of a load ends, and it has its value unless its address stops it.
    fn complete_load(&mut self, who: usize, said: Option<u32>) -> Result<(), Why>
        ensures ok { OnOk result (Executes self.old.unit who self.new.unit) }
        ensures value { OnOk result (IfSome said (HasOutcome self.new.unit.tenants.items who)) }
        ensures err { IfErr result (λ why. Refuses self.old.unit (AreExecution who) why self.new.unit) }
        ensures denied { IfErr result (DeniesOutcome self.new.unit.tenants.items who said) }
    {
        self.compute(who)?;
        match self.unit.tenant(who).map(|t| t.fate) {
            Some(Fate::Addr(_)) => self.load(who, said),
            _ => self.has_outcome(who, said),
        }
    }
}
