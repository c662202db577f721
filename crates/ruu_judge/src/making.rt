//! The making of a judge.
ghost use Rattle.std.specs.Prelude.{◌≡◌, IfErr, IfOk, IfSome};
ghost use Rattle.isa.specs.Listing.{listing};
ghost use Rattle.ruu_judge.specs.Calls.{IsMade, IsNotMade, issue_by};
ghost use Rattle.ruu_judge.specs.declared.making.NotMade.TheVariants.{Memory as NoRoom};

use crate::held::Held;
use crate::owned::{OwnedUnit, Rules};
use events::Issue;
use isa::{FaultKind, parse};
use std::alloc::{AllocError, AllocFailed, Global};

// The flags of a judge.
const GUESSES: u32 = 1;

const FLUSHES: u32 = 2;

const ISSUE_DISPATCHES: u32 = 4;

/// Why there is no judge.
#[derive(Clone, Copy)]
pub enum NotMade {
    /// The listing has a fault at this line.
    Fault(u64),
    Memory,
}

impl From<AllocError> for NotMade {
    ghost from_gives = { λ _ why. why ≡ NoRoom };

    fn from(_error: AllocError) -> NotMade {
        NotMade::Memory
    }
}

impl<T: Drop> From<AllocFailed<T>> for NotMade {
    ghost from_gives = { λ _ why. why ≡ NoRoom };

    fn from(_failed: AllocFailed<T>) -> NotMade {
        NotMade::Memory
    }
}

// What flags say that `issue` means; none where that is two things.
fn issue_of(flags: u32) -> Option<Issue>
    ensures { IfSome result (λ issue. issue ≡ issue_by flags) }
{
    match flags / ISSUE_DISPATCHES {
        0 => Some(Issue::Ambiguous),
        1 => Some(Issue::Dispatch),
        2 => Some(Issue::Execute),
        _ => None,
    }
}

/// What flags ask for; none where one of them is unknown, or `issue` would have two meanings.
pub(crate) fn rules_of(flags: u32) -> Option<Rules>
    ensures { IfSome result (λ rules. rules.issue ≡ issue_by flags) }
{
    if flags > 15 {
        return None;
    }
    let issue = issue_of(flags)?;
    Some(Rules {
        issue,
        guesses: flags & GUESSES != 0,
        flushes: flags & FLUSHES != 0,
    })
}

/// A judge of the unit of a listing's program.
pub(crate) fn made(
    alloc: Global,
    text: &[u8],
    stations: usize,
    queue: usize,
    rules: Rules,
) -> Result<Box<Held>, NotMade>
    ensures ok { IfOk result (λ b. IsMade (listing text.now) stations queue b.value) }
    ensures rules { IfOk result (λ b. b.value.rules ≡ rules) }
    ensures err { IfErr result (IsNotMade (listing text.now)) }
{
    let program = match parse(alloc, text) {
        Ok(program) => program,
        Err(fault) if fault.kind == FaultKind::Memory => return Err(NotMade::Memory),
        Err(fault) => return Err(NotMade::Fault(fault.line)),
    };
    let unit = OwnedUnit::new(alloc, program, stations, queue)?;
    Ok(Box::new(alloc, Held::new(rules, unit))?)
}
