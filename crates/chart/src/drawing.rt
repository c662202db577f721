//! The chart: a line for each tenant, and what became of it over the turns.

use crate::event::Way;
use crate::lines::Line;
use crate::live_rows::LiveRows;
use crate::source::Source;
use instructions::Kind;
use isa::Hexadecimal;
use std::alloc::{AllocError, Global};

/// The picture wraps after this many turns.
const TURNS: u64 = 64;

/// The heads of the first columns.
const HEADS: &str = "row\tturn\tpc        ";

/// The numbers of the columns of turns.
const RULER: &str = "....5...10...15...20...25...30...35...40...45...50...55...60....";

/// The lines of a run's tenants, those of each round below its axis, and a last line where more tenants were dispatched than
/// are drawn.
pub(crate) fn chart_text(
    alloc: Global,
    source: &Source<'_>,
    rows: &LiveRows,
) -> Result<String, AllocError> {
    let mut out = String::new(alloc);
    let mut before = None;
    for line in rows.lines.iter() {
        let round = line.row.let_at.saturating_sub(1) / TURNS;
        if before != Some(round) {
            push_axis(alloc, &mut out, round)?;
        }
        before = Some(round);
        push_line(alloc, &mut out, source, line)?;
    }
    let (drawn, lets) = (rows.style.rows, rows.lets);
    if drawn < lets {
        write!(out, "rows {drawn} of {lets}: --rows N draws N\n")?;
    }
    Ok(out)
}

// Adds the axis of a round: its first turn, and the numbers of the columns.
fn push_axis(alloc: Global, out: &mut String, round: u64) -> Result<(), AllocError> {
    let first = round.saturating_mul(TURNS).saturating_add(1);
    let from = format!(in alloc; "from turn {first}")?;
    let text = from.as_str();
    write!(out, "{HEADS} {text:<26} {RULER}\n")
}

// Adds the line of a tenant: position, turn of its dispatch, pc, instruction with the store that it has waited for last, and
// picture.
fn push_line(
    alloc: Global,
    out: &mut String,
    source: &Source<'_>,
    line: &Line,
) -> Result<(), AllocError> {
    let row = &line.row;
    let (position, let_at) = (row.position, row.let_at);
    let pc = Hexadecimal(row.station.pc);
    let mut instr = source.text_of(alloc, &row.station)?;
    if let Some(held) = row.held {
        write!(instr, " B:{}", held.store)?;
    }
    let text = instr.as_str();
    write!(out, "{position}\t{let_at}\t{pc} {text:<26} ")?;
    for _ in 0..let_at.saturating_sub(1) % TURNS {
        out.push_str(" ")?;
    }
    out.push_str("L")?;
    for turn in let_at.saturating_add(1)..line.turn {
        out.push_str(mark_at(line, turn))?;
    }
    out.push_str(way_mark(line.way))?;
    out.push_str("\n")
}

// The mark of a tenant at a turn after that of its dispatch, before it has left.
fn mark_at(line: &Line, turn: u64) -> &'static str {
    let row = &line.row;
    let Some(ran) = row.ran else {
        return ".";
    };
    if turn <= ran {
        return if turn < ran { "." } else { "X" };
    }
    if let Some(at) = row.resolved_at {
        if at <= turn {
            return if at < turn {
                "="
            } else {
                resolved_mark(row.station.instr.kind())
            };
        }
    }
    let is_blocked = row
        .held
        .is_some_and(|held| turn <= held.turn.saturating_add(1));
    if is_blocked { "B" } else { "-" }
}

// The mark of a load that got its value, or of a miss that was resolved.
fn resolved_mark(kind: Kind) -> &'static str {
    match kind {
        Kind::Loads => "V",
        _ => "M",
    }
}

// The mark at the end of a line: how the tenant has left, or that it is still live.
fn way_mark(way: Option<Way>) -> &'static str {
    match way {
        Some(Way::Retired(_)) => "R",
        Some(Way::Squashed) => "S",
        None => ">",
    }
}
