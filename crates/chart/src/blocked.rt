//! The loads that are blocked, and the stores that they wait for.
ghost use Rattle.std.specs.Prelude.{◌≡◌, ◌++◌, IfOk, OnOk};
ghost use Rattle.one_thread.specs.Loads.{address_of as address_by};
ghost use Rattle.chart.specs.Blocked.{block_event, block_events, blocker, entry_after as entry_of};
ghost use Rattle.chart.specs.Blocked.{held_rows, joined, made_after as made_of, no_rows, queued};
ghost use Rattle.chart.specs.Rows.{all_seen};

use crate::event::Event;
use crate::row::Row;
use crate::waits::writer_of;
use inorder::{access_entry, access_width};
use instructions::{Kind, Predictor, Reg};
use lsq::{Answer, Entry, answer_over};
use one_thread::{Bench, Stage};
use std::alloc::{AllocError, Global};

// Rows, the oldest first, and the loads and stores among them: their entries in the queue, and their positions.
#[derive(Drop)]
struct Queue {
    rows: Vec<Row>,
    entries: Vec<Entry>,
    positions: Vec<u64>,
}

fn address_of(stage: Stage) -> Option<u32>
    ensures { result ≡ address_by stage }
{
    match stage {
        Stage::Addr(address) => Some(address),
        _ => None,
    }
}

// What a register holds after rows, as far as it was made. What no row makes is 0, since its number blocks no load.
fn made_after(rows: &[Row], register: Reg) -> Option<u32>
    ensures { result ≡ made_of rows.now register }
{
    if register.number() == 0 {
        return Some(0);
    }
    match writer_of(register, rows) {
        None => Some(0),
        Some(row) => row.station.made,
    }
}

// What the queue holds of a row after these, if that reaches memory.
fn entry_after(rows: &[Row], row: &Row) -> Option<Entry>
    ensures { result ≡ entry_of rows.now row.now }
{
    let instr = row.station.instr.to_instr();
    let content = match instr.op().kind() {
        Kind::Stores => made_after(rows, instr.second()),
        Kind::Loads => None,
        _ => return None,
    };
    let address = address_of(row.station.stage);
    Some(access_entry(instr.op(), address, content))
}

impl Queue {
    fn new(alloc: Global) -> Queue
        ensures { queued result ≡ no_rows }
    {
        Queue {
            rows: Vec::new(alloc),
            entries: Vec::new(alloc),
            positions: Vec::new(alloc),
        }
    }

    // The position of the store that a row after these waits for: that of a load that has its address and is blocked.
    fn blocker(&self, row: &Row) -> Option<u64>
        ensures { result ≡ blocker (queued self.now) row.now }
    {
        let op = row.station.instr.op();
        let address = match op.kind() {
            Kind::Loads => address_of(row.station.stage)?,
            _ => return None,
        };
        match answer_over(self.entries.as_slice(), address, access_width(op)) {
            Answer::Blocked(place) => self.positions.get(place).copied(),
            _ => None,
        }
    }

    fn push(&mut self, row: Row) -> Result<(), AllocError>
        ensures { OnOk result (queued self.new ≡ joined (queued self.old) row) }
    {
        if let Some(entry) = entry_after(self.rows.as_slice(), &row) {
            self.entries.push(entry)?;
            self.positions.push(row.position)?;
        }
        self.rows.push(row)?;
        Ok(())
    }
}

// Adds the event of a load that begins to wait for a store.
fn push_block(events: &mut Vec<Event>, row: &Row, store: Option<u64>) -> Result<(), AllocError>
    ensures { OnOk result (events.new.items ≡ events.old.items ++ block_event row.now store) }
{
    let position = row.position;
    match (store, row.held) {
        (None, _) => {}
        (Some(store), Some(held)) if held.store == store => {}
        (Some(store), _) => events.push(Event::Blocked { position, store })?,
    }
    Ok(())
}

/// The rows as a turn left them, each by the store that it waits for, and the events of those that begin to wait.
pub(crate) fn hold<P: Predictor + Drop>(
    alloc: Global,
    events: &mut Vec<Event>,
    rows: &[Row],
    bench: &Bench<'_, P>,
    turn: u64,
) -> Result<Vec<Row>, AllocError>
    ensures rows { IfOk result (λ held.
        held.items ≡ held_rows turn (all_seen turn bench.now.pipeline.window 0 rows.now)) }
    ensures events { OnOk result (events.new.items ≡ events.old.items
        ++ block_events turn no_rows (all_seen turn bench.now.pipeline.window 0 rows.now)) }
{
    let mut queue = Queue::new(alloc);
    for (age, row) in rows.iter().enumerate() {
        let row = row.seen(turn, bench.tenant(age));
        let store = queue.blocker(&row);
        push_block(events, &row, store)?;
        queue.push(row.held_by(turn, store))?;
    }
    Ok(queue.rows)
}
