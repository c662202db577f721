//! The texts of verdicts.
use crate::reasons::push_reason;
use crate::tenants::push_in_flight;
use counted_io::Fault;
use events::{Event, Item, Judge, Unread, Why};
use inorder::{Ended, Machine};
use instructions::{End, Ending};
use isa::{Hexadecimal, report_text};
use replay::{Fate, Standing, Tenant, Unit};
use std::alloc::{AllocError, Global};

// How many tenants have retired and were squashed, and how many instructions have retired that do not stop.
#[derive(Clone, Copy)]
struct Counts {
    retired: u64,
    squashed: u64,
    whole: u64,
    stopped: bool,
}

fn counted(counts: Counts, unit: &Unit<'_>, tenant: &Tenant) -> Counts {
    match tenant.standing {
        Standing::Live => counts,
        Standing::Squashed => Counts {
            squashed: counts.squashed.saturating_add(1),
            ..counts
        },
        Standing::Retired => {
            let stops = matches!(tenant.fate, Fate::Stops(_));
            let part = stops || unit.instr(tenant).is_first_half(tenant.half);
            Counts {
                retired: counts.retired.saturating_add(1),
                whole: counts.whole.saturating_add(u64::from(!part)),
                stopped: counts.stopped || stops,
                ..counts
            }
        }
    }
}

// The settled tenants, and then one by one those after them.
fn counts_of(unit: &Unit<'_>) -> Counts {
    let settled = &unit.settled;
    let mut counts = Counts {
        retired: settled.path as u64,
        squashed: (settled.upto as u64).saturating_sub(settled.path as u64),
        whole: settled.count as u64,
        stopped: false,
    };
    for who in settled.upto..unit.tenants.len() {
        if let Some(tenant) = unit.tenant(who) {
            counts = counted(counts, unit, &tenant);
        }
    }
    counts
}

// The stop that has retired, which is that of the machine's next instruction; or the limit, where none has.
fn ending_of(machine: &mut Machine<'_>, counts: Counts) -> Ending {
    if !counts.stopped {
        return Ending::Limit;
    }
    match machine.run(counts.whole.saturating_add(1)) {
        Ended::Stopped(stop) => Ending::Stop(stop),
        Ended::Limit => Ending::Limit,
    }
}

// The in-order machine after as many instructions, and a retired stop if there is one.
fn end_of(alloc: Global, unit: &Unit<'_>, counts: Counts) -> Result<End, Fault> {
    let mut machine = Machine::new(alloc, unit.program)?;
    let _ = machine.run(counts.whole);
    let ending = ending_of(&mut machine, counts);
    let memory = machine.memory().to_vec(alloc)?;
    Ok(End {
        n: machine.count(),
        pc: machine.pc(),
        outcome: ending,
        registers: *machine.registers(),
        memory,
    })
}

/// The text of a log that is legal to its end: the counts, and the report of what has retired.
pub fn legal_text(alloc: Global, judge: &Judge<'_>, events: u64) -> Result<String, Fault> {
    let unit = &judge.unit;
    let counts = counts_of(unit);
    let lets = unit.tenants.len();
    let Counts {
        retired,
        squashed,
        ..
    } = counts;
    let live = (lets as u64).saturating_sub(retired.saturating_add(squashed));
    let end = end_of(alloc, unit, counts)?;
    let report = report_text(alloc, &end)?;
    let report = report.as_str();
    Ok(format!(in alloc;
        "legal events {events} let {lets} retired {retired} squashed {squashed} in flight {live}\n{report}"
    )?)
}

/// The text of an event that is refused: its line, why, and who is in flight.
pub fn refused_text(
    alloc: Global,
    judge: &Judge<'_>,
    item: &Item,
    why: Why,
) -> Result<String, Fault> {
    let line = item.line;
    let mut out = format!(in alloc; "refused line {line}")?;
    if let Some(cycle) = item.cycle {
        write!(&mut out, " cycle {cycle}")?;
    }
    out.push_str(": ")?;
    push_event(&mut out, item.event)?;
    out.push_str("\n")?;
    push_reason(&mut out, &judge.unit, why)?;
    out.push_str("\n")?;
    push_in_flight(&mut out, &judge.unit)?;
    Ok(out)
}

/// The text of a line that is not read.
pub fn unread_text(alloc: Global, line: u64, why: Unread) -> Result<String, Fault> {
    Ok(format!(in alloc; "unread line {line}: {why}\n")?)
}

/// Adds an event as the log has it, in the judge's words.
pub fn push_event(out: &mut String, event: Event) -> Result<(), AllocError> {
    match event {
        Event::Let(pc, next) => {
            out.push_str("let")?;
            push_number(out, " ", pc)?;
            push_number(out, " -> ", next)
        }
        Event::From(who, producer) => write!(out, "from {who} {producer}"),
        Event::Begin(who) => write!(out, "begin {who}"),
        Event::End(who, value) => push_valued(out, "end", Some(who), value),
        Event::Execute(who, value) => push_valued(out, "execute", Some(who), value),
        Event::Read(who, value) => push_valued(out, "read", Some(who), value),
        Event::Load(who, value) => push_valued(out, "load", Some(who), value),
        Event::Complete(who, value) => push_valued(out, "complete", Some(who), value),
        Event::Retire(who, value) => push_valued(out, "retire", who, value),
        Event::Squash(who) => push_valued(out, "squash", who, None),
        Event::Mend(who) => write!(out, "mend {who}"),
        Event::Recover(who) => write!(out, "recover {who}"),
    }
}

fn push_number(out: &mut String, sign: &str, number: Option<u32>) -> Result<(), AllocError> {
    match number {
        Some(number) => {
            let number = Hexadecimal(number);
            write!(out, "{sign}{number}")
        }
        None => Ok(()),
    }
}

fn push_valued(
    out: &mut String,
    verb: &str,
    who: Option<usize>,
    value: Option<u32>,
) -> Result<(), AllocError> {
    out.push_str(verb)?;
    if let Some(who) = who {
        write!(out, " {who}")?;
    }
    push_number(out, " = ", value)
}
