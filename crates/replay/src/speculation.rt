//! Acts ahead of what is known: a load guesses its value, which is confirmed, and the youngest is flushed.
ghost use Rattle.std.specs.Prelude.{◌≡◌, ◌<◌, IfErr, IsTrue, OnOk, OnErr, length, slice_set};
ghost use Rattle.inorder.specs.declared.history.Act.TheVariants.{Speculate};
ghost use Rattle.inorder.specs.declared.history.Speculation.TheVariants.{Confirm, Flush, Guess};
ghost use Rattle.inorder.specs.Legal.{MayAct, change_at};
ghost use Rattle.inorder.specs.Speculation.{CanGuess};
ghost use Rattle.inorder.specs.Unit.{at};
ghost use Rattle.replay.specs.Lets.{sizes_of};
ghost use Rattle.replay.specs.Reasons.{IsNoConfirm, IsNoFlush, IsNoGuess};
ghost use Rattle.replay.specs.Shown.{fate_of, shown};

use crate::claim::{creator, missing};
use crate::refusal::Refusal;
use crate::tenant::{Fate, Standing, Tenant};
use crate::unit::Unit;
use instructions::{Kind, Outcome, loaded};

// A load of this fate can guess: its address waits, or is there.
fn can_guess(fate: Fate) -> bool
    ensures yes { IsTrue result → CanGuess (fate_of fate) }
    ensures no { CanGuess (fate_of fate) → IsTrue result }
{
    matches!(fate, Fate::Open | Fate::Addr(_))
}

impl<'a> Unit<'a> {
    /// The load at a position guesses a value, if it may.
    pub(crate) fn guess(&mut self, who: usize, value: u32) -> Result<(), Refusal>
        ensures ok { OnOk result (MayAct self.old.program.now
            (shown self.old.tenants.items) 0 who (Speculate (Guess value))) }
        ensures done { OnOk result (shown self.new.tenants.items ≡
            change_at self.old.program.now
            (shown self.old.tenants.items) 0 who (Speculate (Guess value))
            (at (shown self.old.tenants.items) who)) }
        ensures err { IfErr result (IsNoGuess self.old.program.now (shown self.old.tenants.items) who) }
        ensures same { OnErr result (self.new ≡ self.old) }
        ensures program { self.new.program ≡ self.old.program }
        ensures sizes { sizes_of self.new ≡ sizes_of self.old }
        ensures length { length self.new.tenants.items ≡ length self.old.tenants.items }
    {
        let tenant = self.live(who)?;
        match self.kind(&tenant) {
            Kind::Loads => {}
            _ => return Err(Refusal::NoLoad),
        }
        match tenant.fate {
            Fate::Busy => return Err(Refusal::HasBegun),
            _ => {}
        }
        if !can_guess(tenant.fate) {
            return Err(Refusal::HasEnded);
        }
        self.put(
            who,
            Tenant {
                fate: Fate::Guessed(value),
                made: Some(value),
                ..tenant
            },
        );
        Ok(())
    }

    /// The value that the load at a position has guessed is confirmed, if it may be.
    pub(crate) fn confirm(&mut self, who: usize) -> Result<(), Refusal>
        ensures ok { OnOk result
            (MayAct self.old.program.now (shown self.old.tenants.items) 0 who (Speculate Confirm)) }
        ensures done { OnOk result (shown self.new.tenants.items ≡
            change_at self.old.program.now (shown self.old.tenants.items) 0 who (Speculate Confirm)
            (at (shown self.old.tenants.items) who)) }
        ensures err { IfErr result
            (IsNoConfirm self.old.program.now (shown self.old.tenants.items) who) }
        ensures same { OnErr result (self.new ≡ self.old) }
        ensures program { self.new.program ≡ self.old.program }
        ensures sizes { sizes_of self.new ≡ sizes_of self.old }
        ensures length { length self.new.tenants.items ≡ length self.old.tenants.items }
    {
        let tenant = self.live(who)?;
        let Fate::Guessed(value) = tenant.fate else {
            return Err(Refusal::NotGuessed);
        };
        match missing(self.kind(&tenant), &tenant) {
            Some(k) => return Err(Refusal::Waits(k, creator(&tenant, k))),
            None => {}
        }
        let Outcome::Address(address) = self.outcome(&tenant) else {
            return Err(Refusal::BadAddress);
        };
        let Some(raw) = self.sure_raw_of(who, &tenant, address) else {
            return Err(Refusal::NotSure(self.unaddressed_before(who)));
        };
        let right = loaded(self.instr(&tenant).op(), raw);
        if right != value {
            return Err(Refusal::OtherValue(right));
        }
        self.put(
            who,
            Tenant {
                fate: Fate::Done(tenant.made.unwrap_or(0)),
                ..tenant
            },
        );
        Ok(())
    }

    /// The tenant at a position is flushed, if it is the youngest.
    pub(crate) fn flush(&mut self, who: usize) -> Result<(), Refusal>
        ensures ok { OnOk result
            (MayAct self.old.program.now (shown self.old.tenants.items) 0 who (Speculate Flush)) }
        ensures done { OnOk result (shown self.new.tenants.items ≡
            change_at self.old.program.now (shown self.old.tenants.items) 0 who (Speculate Flush)
            (at (shown self.old.tenants.items) who)) }
        ensures err { IfErr result (IsNoFlush (shown self.old.tenants.items) who) }
        ensures same { OnErr result (self.new ≡ self.old) }
        ensures program { self.new.program ≡ self.old.program }
        ensures sizes { sizes_of self.new ≡ sizes_of self.old }
        ensures length { length self.new.tenants.items ≡ length self.old.tenants.items }
    {
        let tenant = self.live(who)?;
        match self.live_behind(who) {
            Some(younger) => return Err(Refusal::Younger(younger)),
            None => {}
        }
        self.put(
            who,
            Tenant {
                standing: Standing::Squashed,
                ..tenant
            },
        );
        self.settle();
        Ok(())
    }
}
