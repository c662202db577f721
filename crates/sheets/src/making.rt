//! The events of a row.
use crate::cells::Span;
use crate::columns::Columns;
use crate::order::Within;
use crate::placed::{Moment, Place, Placed};
use crate::row::Row;
use crate::stage::Stage;
use events::Event;
use instructions::Kind;
use std::alloc::{AllocError, Global};

// When something happens to a row, and the stage whose cell says so.
#[derive(Clone, Copy)]
struct Time {
    cycle: u64,
    stage: Stage,
    is_missing: bool,
}

impl Time {
    // This stage at another cycle.
    fn at(self, cycle: u64) -> Time {
        Time { cycle, ..self }
    }
}

// The last instruction of the path: when it is known where it goes on, and when it retires.
#[derive(Clone, Copy)]
struct Branch {
    end: u64,
    retire: Option<u64>,
}

// The events of the rows as far as they are made.
#[derive(Drop)]
struct Making<'a> {
    columns: &'a Columns,
    rows: &'a [Row],
    within: Within,
    branch: Branch,
    dispatched: u64,
    events: Vec<Placed>,
}

// The cycle in which the next row of the path is dispatched, for each row.
fn next_dispatches(alloc: Global, rows: &[Row]) -> Result<Vec<Option<u64>>, AllocError> {
    let mut nexts = Vec::new(alloc);
    let mut next = None;
    for row in rows.iter().rev() {
        nexts.push(next)?;
        if !row.is_squashed {
            next = row.first_of(Stage::Let);
        }
    }
    nexts.as_mut_slice().reverse();
    Ok(nexts)
}

impl<'a> Making<'a> {
    fn new(alloc: Global, columns: &'a Columns, rows: &'a [Row], within: Within) -> Making<'a> {
        Making {
            columns,
            rows,
            within,
            branch: Branch {
                end: 0,
                retire: None,
            },
            dispatched: 0,
            events: Vec::new(alloc),
        }
    }

    // When a stage of a row is, if its cell says so, or is empty and should not be.
    fn time(&self, row: Row, stage: Stage, after: u64) -> Option<Time> {
        match row.first_of(stage) {
            Some(cycle) => Some(Time {
                cycle,
                stage,
                is_missing: false,
            }),
            None if self.columns.has(stage) && row.needs(stage) => Some(Time {
                cycle: after,
                stage,
                is_missing: true,
            }),
            None => None,
        }
    }

    fn push(
        &mut self,
        at: usize,
        event: Event,
        moment: Moment,
        time: Time,
    ) -> Result<(), AllocError> {
        let line = match self.rows.get(at) {
            Some(row) => row.line,
            None => 0,
        };
        self.events.push(Placed {
            event,
            place: Place {
                line,
                cycle: time.cycle,
            },
            row: at,
            stage: time.stage,
            moment,
            is_missing: time.is_missing,
        })?;
        Ok(())
    }

    // Where the row was predicted to go on: at the next row, unless that is dispatched after a recovery.
    fn predicted(&self, at: usize, row: Row) -> Option<u32> {
        if row.next.is_some() || !row.facts.is_predicted {
            return row.next;
        }
        match self.rows.get(at.saturating_add(1)) {
            Some(following) if !row.is_squashed || following.is_squashed => following.pc,
            _ => None,
        }
    }

    // Adds the events of a row.
    fn push_row(&mut self, at: usize, nexts: &[Option<u64>]) -> Result<(), AllocError> {
        let Some(row) = self.rows.get(at).copied() else {
            return Ok(());
        };
        let after = self.dispatched;
        let Some(dispatch) = self.time(row, Stage::Let, after) else {
            return Ok(());
        };
        self.dispatched = dispatch.cycle;
        let times = self.times(row, dispatch);
        for half in 0..row.facts.halves {
            let who = row.position.saturating_add(half);
            let next = self.predicted(at, row);
            self.push(at, Event::Let(row.pc, next), Moment::Let, dispatch)?;
            self.push_execution(at, row, who, times)?;
            self.push_end(at, row, who, times)?;
        }
        self.push_squash(at, row, dispatch, nexts)?;
        if !row.is_squashed {
            self.branch = Branch {
                end: times.end,
                retire: row.first_of(Stage::Retire),
            };
        }
        Ok(())
    }

    fn times(&self, row: Row, dispatch: Time) -> Times {
        let begin = self.time(row, Stage::Begin, dispatch.cycle);
        let after_begin = row.last_of(Stage::Begin).unwrap_or(dispatch.cycle);
        let memory = match row.facts.kind {
            Kind::Loads => self.time(row, Stage::Memory, after_begin),
            _ => None,
        };
        let after_memory = row.last_of(Stage::Memory).unwrap_or(after_begin);
        let write = match row.facts.kind {
            Kind::Stores if begin.is_some() => None,
            _ => self.time(row, Stage::Write, after_memory),
        };
        let end = match write {
            Some(write) => write.cycle,
            None => after_memory,
        };
        let retire = self.time(row, Stage::Retire, end);
        Times {
            begin,
            memory,
            write,
            retire,
            end,
        }
    }
}

// When each stage of a row is, and when its execution has ended.
#[derive(Clone, Copy)]
struct Times {
    begin: Option<Time>,
    memory: Option<Time>,
    write: Option<Time>,
    retire: Option<Time>,
    end: u64,
}

// What ends an execution that has begun or not.
fn ended(times: Times, who: usize, value: Option<u32>) -> Event {
    match times.begin {
        Some(_) => Event::End(who, value),
        None => Event::Execute(who, value),
    }
}

// Whether an execution ends in the cycle in which it begins.
fn end_moment(times: Times, cycle: u64) -> Moment {
    match times.begin {
        Some(begin) if begin.cycle == cycle => Moment::EndAtOnce,
        _ => Moment::End,
    }
}

impl Making<'_> {
    fn push_execution(
        &mut self,
        at: usize,
        row: Row,
        who: usize,
        times: Times,
    ) -> Result<(), AllocError> {
        if let Some(begin) = times.begin {
            self.push(at, Event::Begin(who), Moment::Begin, begin)?;
        }
        if row.facts.kind == Kind::Loads {
            return self.push_load(at, row, who, times);
        }
        let value = match row.facts.kind {
            Kind::Stores | Kind::Jumps => None,
            _ if row.facts.halves == 2 => None,
            _ => row.value,
        };
        let last = match (times.write, times.begin) {
            (Some(write), _) => write,
            (None, Some(begin)) => begin.at(times.end),
            (None, None) => return Ok(()),
        };
        let moment = end_moment(times, last.cycle);
        self.push(at, ended(times, who, value), moment, last)
    }

    // A load has its address when it reads memory, and its value when that is written.
    fn push_load(
        &mut self,
        at: usize,
        row: Row,
        who: usize,
        times: Times,
    ) -> Result<(), AllocError> {
        let last = match (times.write, times.memory, times.begin) {
            (Some(write), _, _) => write,
            (None, Some(memory), _) => memory.at(times.end),
            (None, None, Some(begin)) => begin.at(times.end),
            (None, None, None) => return Ok(()),
        };
        let moment = end_moment(times, last.cycle);
        match times.memory {
            Some(memory) => {
                self.push(at, ended(times, who, None), Moment::Read, memory)?;
                self.push(at, Event::Read(who, None), Moment::Read, memory)?;
            }
            None => self.push(at, ended(times, who, None), moment, last)?,
        }
        self.push(at, Event::Load(who, row.value), moment, last)
    }

    fn push_end(
        &mut self,
        at: usize,
        row: Row,
        who: usize,
        times: Times,
    ) -> Result<(), AllocError> {
        let Some(retire) = times.retire else {
            return Ok(());
        };
        if times.begin.is_none() && times.write.is_none() && times.memory.is_none() {
            self.push(at, Event::Complete(who, None), Moment::Retire, retire)?;
        }
        let data = match row.facts.kind {
            Kind::Stores => row.value,
            _ => None,
        };
        self.push(at, Event::Retire(Some(who), data), Moment::Retire, retire)
    }

    // A row is squashed when its cell says so, or as late as the next row of the path and the branch allow.
    fn push_squash(
        &mut self,
        at: usize,
        row: Row,
        dispatch: Time,
        nexts: &[Option<u64>],
    ) -> Result<(), AllocError> {
        if !row.is_squashed {
            return Ok(());
        }
        let next = match nexts.get(at) {
            Some(next) => *next,
            None => None,
        };
        let time = Time {
            cycle: row.first_of(Stage::Squash).unwrap_or(self.dropped_at(next)),
            stage: Stage::Squash,
            is_missing: false,
        };
        let moment = if self.branch.end < time.cycle {
            Moment::Recover
        } else {
            Moment::Squash
        };
        for half in 0..row.facts.halves {
            let who = row
                .position
                .saturating_add(row.facts.halves.saturating_sub(half.saturating_add(1)));
            self.push(at, Event::Squash(Some(who)), moment, time)?;
        }
        Ok(())
    }

    fn dropped_at(&self, next: Option<u64>) -> u64 {
        let before_next = match (next, self.within) {
            (Some(next), Within::Bypass) => next,
            (Some(next), _) => next.saturating_sub(1),
            (None, _) => u64::MAX,
        };
        let before_retire = self.branch.retire.unwrap_or(u64::MAX);
        match before_next.min(before_retire) {
            u64::MAX => self.branch.end,
            latest => latest.max(self.branch.end),
        }
    }
}

/// The events of rows, row by row.
pub(crate) fn made<'a>(
    alloc: Global,
    columns: &'a Columns,
    rows: &'a [Row],
    within: Within,
) -> Result<Vec<Placed>, AllocError> {
    let nexts = next_dispatches(alloc, rows)?;
    let mut making = Making::new(alloc, columns, rows, within);
    for at in 0..rows.len() {
        making.push_row(at, nexts.as_slice())?;
    }
    Ok(making.events)
}
