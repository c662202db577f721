//! The words for a reason.
use crate::tenants::{push_progress, push_source, push_who};
use events::Why;
use inorder::history::Source;
use isa::Hexadecimal;
use replay::{Deed, Fate, NoLet, Refusal, Standing, Tenant, Unit};
use std::alloc::AllocError;

/// Adds the reason why an event is refused.
pub fn push_reason(out: &mut String, unit: &Unit<'_>, why: Why) -> Result<(), AllocError> {
    match why {
        Why::Let(reason) => push_no_let(out, unit, reason),
        Why::NoInstruction(front) => {
            push_front(out, unit, front)?;
            out.push_str(", where there is no instruction")
        }
        Why::Act(who, deed, refusal) => push_refusal(out, unit, who, deed, refusal),
        Why::NotLet(who) => push_not_let(out, unit, who),
        Why::OtherProducer(who, first, second) => push_producers(out, unit, who, first, second),
        Why::OtherValue(who, is) => {
            push_who(out, unit, who)?;
            let is = Hexadecimal(is);
            write!(out, " has another value: {is}")
        }
        Why::NoValue(who) => {
            push_who(out, unit, who)?;
            push_no_value(out, unit, who)
        }
        Why::Gone(who) => push_gone(out, who),
        Why::Nobody => out.push_str("nobody is in flight"),
    }
}

fn push_no_value(out: &mut String, unit: &Unit<'_>, who: usize) -> Result<(), AllocError> {
    match unit.tenant(who).map(|t| t.fate) {
        Some(Fate::Stops(code)) => write!(out, " has no value: it stops the program by {code}"),
        _ => out.push_str(" has no value"),
    }
}

fn push_not_let(out: &mut String, unit: &Unit<'_>, who: usize) -> Result<(), AllocError> {
    let lets = unit.tenants.len();
    write!(
        out,
        "{who} was not let: {lets} were let before, and the first is 0"
    )
}

// A tenant that is dropped.
fn push_gone(out: &mut String, who: usize) -> Result<(), AllocError> {
    write!(out, "{who} has left long ago")
}

// The last tenant of the path.
fn last_on_path(unit: &Unit<'_>) -> Option<usize> {
    let n = unit.tenants.len();
    for back in 0..n {
        let q = n - 1 - back;
        match unit.tenant(q).map(|t| t.standing) {
            Some(Standing::Squashed) => {}
            _ => return Some(q),
        }
    }
    None
}

fn push_front(out: &mut String, unit: &Unit<'_>, front: u32) -> Result<(), AllocError> {
    let pc = Hexadecimal(front);
    write!(out, "the path goes on at {pc}")?;
    let Some(last) = last_on_path(unit) else {
        return Ok(());
    };
    out.push_str(", after ")?;
    push_who(out, unit, last)?;
    match unit.tenant(last).map(|t| t.fate) {
        Some(Fate::Miss(next)) => {
            let next = Hexadecimal(next);
            write!(out, ", which goes to {next} once it is mended")
        }
        _ => Ok(()),
    }
}

fn push_no_let(out: &mut String, unit: &Unit<'_>, reason: NoLet) -> Result<(), AllocError> {
    match reason {
        NoLet::RingFull => {
            let ring = unit.ring;
            write!(out, "no station is free: all {ring} are in use")
        }
        NoLet::QueueFull => {
            let queue = unit.queue;
            write!(
                out,
                "the load/store queue is full: {queue} loads and stores are in flight"
            )
        }
        NoLet::NoInstruction => out.push_str("there is no such instruction"),
        NoLet::OtherPc(front) => push_front(out, unit, front),
        NoLet::OtherNext(fixed) => {
            let fixed = Hexadecimal(fixed);
            write!(out, "nothing is predicted: it goes on at {fixed}")
        }
        NoLet::NoSupply(Source::First) => out.push_str("source 1 has no producer to wait for"),
        NoLet::NoSupply(Source::Second) => out.push_str("source 2 has no producer to wait for"),
    }
}

// What the producers of a tenant's sources are.
fn push_producers(
    out: &mut String,
    unit: &Unit<'_>,
    who: usize,
    first: Option<usize>,
    second: Option<usize>,
) -> Result<(), AllocError> {
    push_who(out, unit, who)?;
    out.push_str(" has other producers")?;
    push_producer(out, unit, who, Source::First, first)?;
    push_producer(out, unit, who, Source::Second, second)
}

fn push_producer(
    out: &mut String,
    unit: &Unit<'_>,
    who: usize,
    k: Source,
    producer: Option<usize>,
) -> Result<(), AllocError> {
    let (Some(tenant), Some(producer)) = (unit.tenant(who), producer) else {
        return Ok(());
    };
    out.push_str("; ")?;
    push_source(out, unit, &tenant, k)?;
    out.push_str(" comes from ")?;
    push_who(out, unit, producer)
}

// A source of a tenant waits for its producer.
fn push_wait(
    out: &mut String,
    unit: &Unit<'_>,
    who: usize,
    k: Source,
    producer: Option<usize>,
) -> Result<(), AllocError> {
    if let Some(tenant) = unit.tenant(who) {
        push_source(out, unit, &tenant, k)?;
        out.push_str(" of ")?;
    }
    push_who(out, unit, who)?;
    out.push_str(" has no value yet")?;
    match producer {
        Some(producer) => {
            out.push_str(": it waits for ")?;
            push_who(out, unit, producer)?;
            push_progress(out, unit, producer)
        }
        None => Ok(()),
    }
}

// Why a tenant that is in flight and the oldest cannot retire.
fn push_not_done(out: &mut String, unit: &Unit<'_>, who: usize) -> Result<(), AllocError> {
    let Some(tenant) = unit.tenant(who) else {
        return push_not_let(out, unit, who);
    };
    match tenant.fate {
        Fate::Miss(_) => {
            push_who(out, unit, who)?;
            out.push_str(" was mispredicted: those after it are squashed first")
        }
        Fate::Addr(_) if tenant.second.value.is_none() => {
            push_wait(out, unit, who, Source::Second, tenant.second.creator)
        }
        _ => {
            push_who(out, unit, who)?;
            out.push_str(" is not done")
        }
    }
}

// A tenant, and what is true of it.
fn push_of(out: &mut String, unit: &Unit<'_>, who: usize, what: &str) -> Result<(), AllocError> {
    push_who(out, unit, who)?;
    out.push_str(what)
}

fn push_refusal(
    out: &mut String,
    unit: &Unit<'_>,
    who: usize,
    deed: Deed,
    refusal: Refusal,
) -> Result<(), AllocError> {
    match refusal {
        Refusal::NotLet => push_not_let(out, unit, who),
        Refusal::Retired => push_of(out, unit, who, " has retired"),
        Refusal::Squashed => push_of(out, unit, who, " was squashed"),
        Refusal::Gone => push_gone(out, who),
        Refusal::HasBegun => push_of(out, unit, who, " has begun before"),
        Refusal::HasEnded => push_of(out, unit, who, " has ended before"),
        Refusal::Waits(k, producer) => push_wait(out, unit, who, k, producer),
        Refusal::NotBegun => push_of(out, unit, who, " has not begun"),
        Refusal::NoLoad => push_of(out, unit, who, " is no load"),
        Refusal::NoAddress => push_no_address(out, unit, who),
        Refusal::StoreAddress(store) => {
            out.push_str("the older store ")?;
            push_of(out, unit, store, " has no address yet")
        }
        Refusal::NoByte => push_no_byte(out, unit, who),
        Refusal::Younger(younger) => push_of(
            out,
            unit,
            younger,
            " is younger, and is squashed first",
        ),
        Refusal::NoMiss => out.push_str(
            "no older instruction in flight is known to be mispredicted",
        ),
        Refusal::NotMissed => push_of(out, unit, who, " is not known to be mispredicted"),
        Refusal::Older(older) => push_of(out, unit, older, " is older, and retires first"),
        Refusal::NotGuessed => push_of(out, unit, who, " has guessed no value"),
        Refusal::BadAddress => push_of(
            out,
            unit,
            who,
            " has guessed a value, and stops at its address",
        ),
        Refusal::NotSure(store) => push_not_sure(out, unit, who, store),
        Refusal::OtherValue(is) => {
            push_of(out, unit, who, " has guessed another value than it has: ")?;
            let is = Hexadecimal(is);
            write!(out, "{is}")
        }
        Refusal::NotDone => push_not_done(out, unit, who),
        Refusal::Ended(stop, code) => {
            write!(out, "the program has ended by {code}: ")?;
            push_of(out, unit, stop, " has retired")
        }
        Refusal::HasAsked | Refusal::NotAsked | Refusal::HasValue | Refusal::NothingMade(_) => {
            push_unsaid(out, deed)
        }
    }
}

// Links and deliveries, of which no event speaks.
fn push_unsaid(out: &mut String, deed: Deed) -> Result<(), AllocError> {
    out.push_str(match deed {
        Deed::Link(_) => "the source is not linked",
        _ => "the source is not delivered",
    })
}

fn push_no_address(out: &mut String, unit: &Unit<'_>, who: usize) -> Result<(), AllocError> {
    match unit.tenant(who).map(|t| t.fate) {
        Some(Fate::Done(_)) => push_of(out, unit, who, " has its value"),
        Some(Fate::Stops(code)) => {
            push_who(out, unit, who)?;
            write!(out, " has no value: it stops the program by {code}")
        }
        _ => push_of(out, unit, who, " has no address yet"),
    }
}

// A store before a load that has guessed can still change its value.
fn push_not_sure(
    out: &mut String,
    unit: &Unit<'_>,
    who: usize,
    store: Option<usize>,
) -> Result<(), AllocError> {
    match store {
        Some(store) => {
            push_of(out, unit, who, " has guessed a value, and ")?;
            push_of(out, unit, store, " has no address yet")
        }
        None => push_no_byte(out, unit, who),
    }
}

// The last older store to a byte of a load has no data.
fn push_no_byte(out: &mut String, unit: &Unit<'_>, who: usize) -> Result<(), AllocError> {
    out.push_str("an older store to a byte of ")?;
    push_of(out, unit, who, " has no data yet")
}
