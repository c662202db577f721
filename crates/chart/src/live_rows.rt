//! The live tenants of a run, from turn to turn.
ghost use Rattle.std.specs.Prelude.{◌≡◌, ◌++◌, IfOk, OnOk, slice_get, take};
ghost use Rattle.chart.specs.Events.{closed, entered, entered_events, events, moved_events, next_kept};
ghost use Rattle.chart.specs.Events.{retired, retired_events, squashes, step_events, stepped};
ghost use Rattle.chart.specs.Rows.{kept, start_kept};
ghost use Rattle.counted_io.specs.Counted.{raised as raised_of};

use crate::blocked::hold;
use crate::event::{Event, Way};
use crate::lines::{Line, Style, add_live, note_all};
use crate::row::Row;
use crate::waits::entry;
use instructions::Predictor;
use one_thread::{Bench, Station, Turn};
use std::alloc::{AllocError, Global};

/// Which lines are drawn; counts of the turns that were made, the tenants that were let and those that have retired; a row
/// for each live tenant, the oldest first; and the lines.
#[derive(Drop)]
pub(crate) struct LiveRows {
    pub(crate) style: Style,
    turns: u64,
    pub(crate) lets: u64,
    retirements: u64,
    rows: Vec<Row>,
    pub(crate) lines: Vec<Line>,
}

// A count and one more, up to the greatest number.
fn raised(n: u64) -> u64
    ensures { result ≡ raised_of n }
{
    n.saturating_add(1)
}

// Takes out all tenants after the first `live`, the youngest first.
fn squash(rows: &mut Vec<Row>, events: &mut Vec<Event>, live: usize) -> Result<(), AllocError>
    ensures rows { OnOk result (rows.new.items ≡ take live rows.old.items) }
    ensures events { OnOk result
        (events.new.items ≡ events.old.items ++ squashes live rows.old.items) }
{
    let way = Way::Squashed;
    'squashes: while live < rows.len() {
        if let Some(row) = rows.pop() {
            events.push(Event::Left { row, way })?;
        }
    }
    Ok(())
}

fn row_at(rows: &[Row], age: usize) -> Option<Row>
    ensures { result ≡ slice_get rows.now age }
{
    rows.get(age).copied()
}

// Adds the event of the tenant of an age, which a turn has worked on.
fn push_moved<P: Predictor + Drop>(
    events: &mut Vec<Event>,
    rows: &[Row],
    age: usize,
    bench: &Bench<'_, P>,
) -> Result<(), AllocError>
    ensures { OnOk result (events.new.items
        ≡ events.old.items ++ moved_events age bench.now.pipeline.window rows.now) }
{
    let Some(row) = row_at(rows, age) else {
        return Ok(());
    };
    let Some(station) = bench.tenant(age) else {
        return Ok(());
    };
    let position = row.position;
    let (from, to) = (row.station.stage, station.stage);
    events.push(Event::Moved { position, from, to })?;
    Ok(())
}

impl LiveRows {
    pub(crate) fn new(alloc: Global, style: Style) -> LiveRows
        ensures { kept result ≡ start_kept style }
    {
        LiveRows {
            style,
            turns: 0,
            lets: 0,
            retirements: 0,
            rows: Vec::new(alloc),
            lines: Vec::new(alloc),
        }
    }

    // A tenant enters this station after the others.
    fn enter(&mut self, events: &mut Vec<Event>, station: Option<Station>) -> Result<(), AllocError>
        ensures kept { OnOk result (kept self.new ≡ entered (kept self.old) station) }
        ensures events { OnOk result (events.new.items
            ≡ events.old.items ++ entered_events (kept self.old) station) }
    {
        let Some(station) = station else {
            return Ok(());
        };
        let row = Row {
            position: self.lets,
            let_at: self.turns,
            ran: None,
            held: None,
            resolved_at: None,
            station,
        };
        events.push(entry(self.rows.as_slice(), &row))?;
        self.rows.push(row)?;
        self.lets = raised(self.lets);
        Ok(())
    }

    // The oldest tenant retires, if fewer are live now.
    fn retire(&mut self, events: &mut Vec<Event>, live: usize) -> Result<(), AllocError>
        ensures kept { OnOk result (kept self.new ≡ retired live (kept self.old)) }
        ensures events { OnOk result (events.new.items
            ≡ events.old.items ++ retired_events live (kept self.old)) }
    {
        if live < self.rows.len() {
            let row = self.rows.remove(0);
            let way = Way::Retired(self.retirements);
            events.push(Event::Left { row, way })?;
            self.retirements = raised(self.retirements);
        }
        Ok(())
    }

    // What the step of a turn changes, before the stations of the rows are seen.
    fn step<P: Predictor + Drop>(
        &mut self,
        events: &mut Vec<Event>,
        answer: Turn,
        bench: &Bench<'_, P>,
    ) -> Result<(), AllocError>
        ensures kept { OnOk result (kept self.new
            ≡ stepped (kept self.old) answer bench.now.pipeline.window) }
        ensures events { OnOk result (events.new.items ≡ events.old.items
            ++ step_events (kept self.old) answer bench.now.pipeline.window) }
    {
        match answer {
            Turn::Let => {
                let youngest = bench.tenant(self.rows.len());
                self.enter(events, youngest)
            }
            Turn::Recovered(age) => {
                squash(&mut self.rows, events, bench.live())?;
                push_moved(events, self.rows.as_slice(), age, bench)
            }
            Turn::Ran(age) | Turn::Loaded(age) => {
                push_moved(events, self.rows.as_slice(), age, bench)
            }
            Turn::Halved | Turn::Retired | Turn::Over(_) => self.retire(events, bench.live()),
        }
    }

    /// Keeps the rows through a turn of a bench, and gives what became of the tenants.
    pub(crate) fn turn<P: Predictor + Drop>(
        &mut self,
        alloc: Global,
        answer: Turn,
        bench: &Bench<'_, P>,
    ) -> Result<Vec<Event>, AllocError>
        ensures events { IfOk result (λ all.
            all.items ≡ events (kept self.old) answer bench.now.pipeline.window) }
        ensures kept { OnOk result (kept self.new
            ≡ next_kept (kept self.old) answer bench.now.pipeline.window) }
    {
        let mut events = Vec::new(alloc);
        self.turns = raised(self.turns);
        self.step(&mut events, answer, bench)?;
        let rows = hold(alloc, &mut events, self.rows.as_slice(), bench, self.turns)?;
        self.rows = rows;
        note_all(&mut self.lines, self.style, self.turns, events.as_slice())?;
        Ok(events)
    }

    /// Adds the lines of the tenants that are still live.
    pub(crate) fn close(&mut self) -> Result<(), AllocError>
        ensures { OnOk result (kept self.new ≡ closed (kept self.old)) }
    {
        let turn = raised(self.turns);
        add_live(&mut self.lines, self.style, turn, self.rows.as_slice())
    }
}
