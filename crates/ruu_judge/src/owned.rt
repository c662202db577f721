//! A unit that owns its program.
ghost use Rattle.replay.specs.Dropping.{IsDropped};
ghost use Rattle.replay.specs.Settlement.{AreUses, IsSettled};

use counted_io::Fault;
use events::{Event, Issue, Item, Judge, Why};
use instructions::Program;
use replay::{Settled, Tail, Tenant, Unit};
use std::alloc::{AllocError, Global};
use verdicts::{legal_text, refused_text};

/// What a judge allows beside the steps of the unit, and what `issue` means.
#[derive(Clone, Copy)]
pub struct Rules {
    pub issue: Issue,
    pub guesses: bool,
    pub flushes: bool,
}

/// A unit, and its program.
#[derive(Drop)]
pub struct OwnedUnit {
    pub program: Program,
    pub ring: usize,
    pub queue: usize,
    pub first_tag: u64,
    pub tenants: Tail<Tenant>,
    pub settled: Settled,
    pub uses: Tail<u64>,
    pub ghost settles: { IsSettled program tenants.items settled },
    pub ghost counts: { AreUses tenants.items uses.items },
    pub ghost drops: { IsDropped tenants.items tenants.from settled.upto },
}

/// A unit after an event.
#[derive(Drop)]
pub enum Judged {
    Legal(OwnedUnit),
    Refused(OwnedUnit, Why),
    NoMemory,
}

impl OwnedUnit {
    ghost use Rattle.std.specs.Prelude.{IfOk};
    ghost use Rattle.ruu_judge.specs.Units.{IsNewUnit, IsSame, IsVerdict};

    /// The unit of a program before its first event, with `ring` stations and at most `queue` loads and stores in flight.
    pub fn new(
        alloc: Global,
        program: Program,
        ring: usize,
        queue: usize,
    ) -> Result<OwnedUnit, AllocError>
        ensures { IfOk result (IsNewUnit program ring queue) }
    {
        let Judge {
            unit,
            guesses: _,
            flushes: _,
        } = Judge::new(alloc, &program, ring, queue)?;
        let Unit {
            program: _,
            ring,
            queue,
            first_tag,
            tenants,
            settled,
            uses,
        } = unit;
        Ok(OwnedUnit {
            program,
            ring,
            queue,
            first_tag,
            tenants,
            settled,
            uses,
        })
    }

    /// The unit after an event, if that is legal. A let at which a predictor is asked, and which does not say its predicted next
    /// pc, is predicted in order.
    #[tactic(auto, using(crate::proofs::Judging::taken_settles, crate::proofs::Judging::refused_settles))]
    pub fn judged(self, rules: Rules, event: Event) -> Judged
        ensures { IsVerdict self event result }
    {
        let OwnedUnit {
            program,
            ring,
            queue,
            first_tag,
            tenants,
            settled,
            uses,
        } = self;
        let unit = Unit {
            program: &program,
            ring,
            queue,
            first_tag,
            tenants,
            settled,
            uses,
        };
        let mut judge = Judge {
            unit,
            guesses: rules.guesses,
            flushes: rules.flushes,
        };
        let answer = judge.event(event, None);
        let Judge {
            unit,
            guesses: _,
            flushes: _,
        } = judge;
        let Unit {
            program: _,
            ring,
            queue,
            first_tag,
            tenants,
            settled,
            uses,
        } = unit;
        let Ok(found) = answer else {
            return Judged::NoMemory;
        };
        match found {
            Ok(()) => Judged::Legal(OwnedUnit {
                program,
                ring,
                queue,
                first_tag,
                tenants,
                settled,
                uses,
            }),
            Err(why) => Judged::Refused(
                OwnedUnit {
                    program,
                    ring,
                    queue,
                    first_tag,
                    tenants,
                    settled,
                    uses,
                },
                why,
            ),
        }
    }
    /// The text of a verdict: that of the event that is refused, or the counts and the report after n legal ones.
    pub fn text(
        self,
        alloc: Global,
        refused: Option<(Item, Why)>,
        judged: u64,
    ) -> (OwnedUnit, Result<String, Fault>)
        ensures { IsSame self result.0 }
    {
        let OwnedUnit {
            program,
            ring,
            queue,
            first_tag,
            tenants,
            settled,
            uses,
        } = self;
        let unit = Unit {
            program: &program,
            ring,
            queue,
            first_tag,
            tenants,
            settled,
            uses,
        };
        let judge = Judge {
            unit,
            guesses: false,
            flushes: false,
        };
        let text = match refused {
            Some((item, why)) => refused_text(alloc, &judge, &item, why),
            None => legal_text(alloc, &judge, judged),
        };
        let Judge {
            unit,
            guesses: _,
            flushes: _,
        } = judge;
        let Unit {
            program: _,
            ring,
            queue,
            first_tag,
            tenants,
            settled,
            uses,
        } = unit;
        let back = OwnedUnit {
            program,
            ring,
            queue,
            first_tag,
            tenants,
            settled,
            uses,
        };
        (back, text)
    }
}
