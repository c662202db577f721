//! The words for an instruction in flight.
use inorder::history::Source;
use instructions::{Half, Instr};
use isa::{Hexadecimal, InstrText, RegisterName};
use replay::{Fate, Standing, Tenant, Unit};
use std::alloc::AllocError;

// Of a multiplication or division, which half it is.
fn half_text(instr: &Instr, half: Half) -> &'static str {
    match half {
        Half::High => " hi",
        Half::Low if instr.is_first_half(half) => " lo",
        Half::Low => "",
    }
}

/// Adds a tenant by its position and its instruction.
pub fn push_who(out: &mut String, unit: &Unit<'_>, who: usize) -> Result<(), AllocError> {
    let Some(tenant) = unit.tenant(who) else {
        return write!(out, "{who}");
    };
    let instr = unit.instr(&tenant);
    let half = half_text(&instr, tenant.half);
    let text = InstrText::by_numbers(instr);
    write!(out, "{who} {text}{half}")
}

/// Adds a source of a tenant by its number and its register.
pub fn push_source(
    out: &mut String,
    unit: &Unit<'_>,
    tenant: &Tenant,
    k: Source,
) -> Result<(), AllocError> {
    let instr = unit.instr(tenant);
    let (number, r) = match k {
        Source::First => (1, instr.first()),
        Source::Second => (2, instr.second()),
    };
    let name = RegisterName(usize::from(r.number()));
    write!(out, "source {number} ({name})")
}

/// Adds how far a producer has come that has made nothing.
pub fn push_progress(out: &mut String, unit: &Unit<'_>, who: usize) -> Result<(), AllocError> {
    let Some(tenant) = unit.tenant(who) else {
        return Ok(());
    };
    let station = tenant.station;
    write!(out, " (station {station}), ")?;
    out.push_str(match tenant.fate {
        Fate::Open => "which has not begun",
        Fate::Busy => "which has begun and not ended",
        Fate::Addr(_) => "which has its address, and no value",
        _ => "which makes none",
    })
}

fn fate_text(fate: Fate) -> &'static str {
    match fate {
        Fate::Open => "waits",
        Fate::Busy => "executes",
        Fate::Addr(_) => "has its address",
        Fate::Done(_) => "done",
        Fate::Miss(_) => "mispredicted",
        Fate::Stops(_) => "stops",
        Fate::Guessed(_) => "has guessed its value",
    }
}

/// Adds a line for each tenant in flight, the oldest first.
pub fn push_in_flight(out: &mut String, unit: &Unit<'_>) -> Result<(), AllocError> {
    for who in unit.settled.upto..unit.tenants.len() {
        let Some(tenant) = unit.tenant(who) else {
            break;
        };
        if matches!(tenant.standing, Standing::Live) {
            let station = tenant.station;
            let pc = Hexadecimal(tenant.pc);
            let fate = fate_text(tenant.fate);
            write!(out, "station {station}: {pc} ")?;
            push_who(out, unit, who)?;
            write!(out, ": {fate}\n")?;
        }
    }
    Ok(())
}
