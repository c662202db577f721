//! A judge: the unit as the events before have left it.
ghost use Rattle.std.specs.Prelude.{◌≡◌, ℕ, IfErr, IfNone, IfOk, IfSome, IsTrue, OnErr, OnOk, [], ◌∷◌, length};
ghost use Rattle.events.specs.Denied.{Denies, IsOfAct};
ghost use Rattle.events.specs.Following.{Follows};
ghost use Rattle.events.specs.Told.{Begins, IsEmpty, Only, Refuses, Tells};
ghost use Rattle.replay.specs.declared.step.Step.TheVariants.{On};
ghost use Rattle.replay.specs.Lets.{sizes_of};

use crate::event::Event;
use crate::why::Why;
use instructions::Program;
use replay::{Deed, Standing, Tenant, Unit};
use std::alloc::{AllocError, Global};

/// A unit whose events somebody else tells.
#[derive(Drop)]
pub struct Judge<'a> {
    pub unit: Unit<'a>,
    /// A load may take a value ahead of older stores, if that is its value once it retires.
    pub guesses: bool,
    /// The youngest may be squashed without a misprediction.
    pub flushes: bool,
}

impl<'a> Judge<'a> {
    /// The unit of a program before its first event, with `ring` stations and at most `queue` loads and stores in flight.
    pub fn new(
        alloc: Global,
        program: &'a Program,
        ring: usize,
        queue: usize,
    ) -> Result<Judge<'a>, AllocError>
        ensures tenants { IfOk result (λ j. j.unit.tenants.items ≡ []) }
        ensures program { IfOk result (λ j. j.unit.program.now ≡ program.now) }
        ensures sizes { IfOk result (λ j. sizes_of j.unit ≡ record { ring = ring; queue = queue; first_tag = 1 }) }
    {
        Ok(Judge {
            unit: Unit::new(alloc, program, ring, queue)?,
            guesses: false,
            flushes: false,
        })
    }

    /// Takes an event, if it is legal. Where a predictor is asked and the event says no next pc, `guess` is the predicted one, and
    /// without it the next pc in order.
    /// After a refusal the unit has made those steps of the event that stand before the one that is refused.
    pub fn event(&mut self, event: Event, guess: Option<u32>) -> Result<Result<(), Why>, AllocError>
        ensures ok { IfOk result (λ answer. OnOk answer (Tells self.old.unit event self.new.unit)) }
        ensures err { IfOk result (λ answer. IfErr answer (λ why. Refuses self.old.unit (Begins event) why self.new.unit)) }
        ensures denied { IfOk result (λ answer. IfErr answer (Denies self.old.unit event self.new.unit)) }
    {
        match event {
            Event::Let(pc, next) => self.dispatch(pc, next, guess),
            Event::From(who, producer) => Ok(self.comes_from(who, producer)),
            Event::Begin(who) => Ok(self.begin(who)),
            Event::End(who, value) => Ok(self.end(who, value)),
            Event::Execute(who, value) => Ok(self.execute(who, value)),
            Event::Read(who, value) => Ok(self.read(who, value)),
            Event::Load(who, value) => Ok(self.load(who, value)),
            Event::Complete(who, value) => Ok(self.complete(who, value)),
            Event::Retire(who, value) => Ok(self.retire(who, value)),
            Event::Squash(who) => Ok(self.squash(who)),
            Event::Mend(who) => Ok(self.mend(who)),
            Event::Recover(who) => Ok(self.recover(who)),
        }
    }

    // Does it to a tenant, if it is allowed, and delivers what the tenant has made by it.
    pub(crate) fn act(&mut self, who: usize, deed: Deed) -> Result<(), Why>
        ensures ok { OnOk result (Follows self.old.unit (On who deed ∷ []) self.new.unit) }
        ensures err { IfErr result (λ why. Refuses self.old.unit (Only (On who deed)) why self.new.unit) }
        ensures denied { IfErr result IsOfAct }
    {
        match self.unit.act(who, deed) {
            Ok(()) => {
                self.unit.deliver_after(who, deed);
                Ok(())
            }
            Err(refusal) => Err(Why::Act(who, deed, refusal)),
        }
    }

    // A misprediction that no event says to be mended is mended, if that is allowed.
    pub(crate) fn mend_unsaid(&mut self, who: usize)
        ensures { Follows self.old.unit [] self.new.unit }
    {
        match self.unit.act(who, Deed::Mend) {
            Ok(()) => {}
            Err(_) => {}
        }
    }

    /// The oldest in flight.
    pub fn oldest(&self) -> Option<usize>
        ensures { IfNone result (IsEmpty self.now.unit) }
    {
        self.unit.live_before(self.unit.tenants.len())
    }

    /// The youngest in flight.
    pub fn youngest(&self) -> Option<usize>
        ensures { IfNone result (IsEmpty self.now.unit) }
    {
        let oldest = self.oldest()?;
        let n = self.unit.tenants.len();
        for back in 0..n - self.unit.settled.upto {
            let q = n - 1 - back;
            if is_live(self.unit.tenant(q)) {
                return Some(q);
            }
        }
        Some(oldest)
    }
}

pub(crate) fn is_live(tenant: Option<Tenant>) -> bool {
    match tenant {
        Some(tenant) => matches!(tenant.standing, Standing::Live),
        None => false,
    }
}
