//! The lines of a chart, from turn to turn.
ghost use Rattle.std.specs.Prelude.{◌≡◌, OnOk};
ghost use Rattle.chart.specs.Lines.{added, after_event, after_events, with_live};

use crate::event::{Event, Way};
use crate::row::Row;
use std::alloc::AllocError;

/// Which tenants have a line, and in which order.
#[derive(Clone, Copy)]
pub struct Style {
    /// The number of tenants that have a line: those that were dispatched first.
    pub rows: u64,
    /// The lines stand in the order in which their tenants have left, and not in that of the program.
    pub by_leave: bool,
}

/// A line of a chart: a row, the turn up to which it is drawn, and how its tenant has left, if it has.
#[derive(Clone, Copy)]
pub struct Line {
    pub row: Row,
    pub turn: u64,
    pub way: Option<Way>,
}

// Adds a line: in the place of its row in the order of the program, and at the end in the order of leaving.
fn add(lines: &mut Vec<Line>, style: Style, line: Line) -> Result<(), AllocError>
    ensures { OnOk result (lines.new.items ≡ added style lines.old.items line) }
{
    let position = line.row.position;
    if position >= style.rows {
        return Ok(());
    }
    let at = position as usize;
    if !style.by_leave && at < lines.len() {
        lines[at] = line;
    } else {
        lines.push(line)?;
    }
    Ok(())
}

// Adds the line of a tenant that has left, and in the order of the program that of one that was let, which keeps its place.
fn note(lines: &mut Vec<Line>, style: Style, turn: u64, event: &Event) -> Result<(), AllocError>
    ensures { OnOk result (lines.new.items ≡ after_event style turn lines.old.items event.now) }
{
    let (row, way) = match event {
        Event::Let { row, .. } if !style.by_leave => (*row, None),
        Event::Left { row, way } => (*row, Some(*way)),
        _ => return Ok(()),
    };
    add(lines, style, Line { row, turn, way })
}

/// Adds what the events of a turn change.
pub(crate) fn note_all(
    lines: &mut Vec<Line>,
    style: Style,
    turn: u64,
    events: &[Event],
) -> Result<(), AllocError>
    ensures { OnOk result
        (lines.new.items ≡ after_events style turn lines.old.items events.now) }
{
    for event in events.iter() {
        note(lines, style, turn, event)?;
    }
    Ok(())
}

/// Adds the lines of the tenants that are still live.
pub(crate) fn add_live(
    lines: &mut Vec<Line>,
    style: Style,
    turn: u64,
    rows: &[Row],
) -> Result<(), AllocError>
    ensures { OnOk result (lines.new.items ≡ with_live style turn lines.old.items rows.now) }
{
    for row in rows.iter() {
        let (row, way) = (*row, None);
        add(lines, style, Line { row, turn, way })?;
    }
    Ok(())
}
