//! Judging each event of a table at the first moment at which it is possible.
use crate::limits::{Limits, exceeded};
use crate::marks::{Grade, Wrong};
use events::{Event, Judge, Why};
use instructions::Program;
use replay::NoLet;
use sheets::{Placed, Sheet, Stage, Within, order_within};
use std::alloc::{AllocError, Global};

/// Why an event is refused.
#[derive(Clone, Copy)]
pub(crate) enum Refused {
    /// An earlier row has not been dispatched.
    Unordered,
    By(Why),
}

// What became of an event.
#[derive(Clone, Copy)]
enum Mark {
    /// The event has come, or comes later.
    Plain,
    /// The event waits until it is possible, since an earlier mistake delays it.
    Delayed,
    /// The event waits until it is possible, and its cell is wrong.
    Wrong(usize),
}

/// A table that is graded, up to a cycle.
#[derive(Drop)]
pub(crate) struct Grading<'a> {
    pub(crate) alloc: Global,
    pub(crate) sheet: &'a Sheet,
    pub(crate) judge: Judge<'a>,
    within: Within,
    cycle: u64,
    marks: Vec<Mark>,
    /// The events that wait.
    pub(crate) late: Vec<usize>,
    wrong: Vec<Wrong>,
}

impl<'a> Grading<'a> {
    fn event(&self, at: usize) -> Option<Placed> {
        self.sheet.events.as_slice().get(at).copied()
    }

    // The place of a wrong cell in the list, which it enters with its reason where it is not there.
    fn blame(
        &mut self,
        placed: &Placed,
        column: &'static str,
        reason: String,
    ) -> Result<usize, AllocError> {
        let row = placed.row;
        match self
            .wrong
            .iter()
            .position(|wrong| wrong.row == row && wrong.column == column)
        {
            Some(found) => Ok(found),
            None => {
                let cycle = if placed.is_missing {
                    None
                } else {
                    Some(placed.place.cycle)
                };
                self.wrong.push(Wrong {
                    row,
                    column,
                    cycle,
                    earliest: None,
                    reason,
                })?;
                Ok(self.wrong.len().saturating_sub(1))
            }
        }
    }

    fn mark(&mut self, at: usize, mark: Mark) {
        if let Some(place) = self.marks.as_mut_slice().get_mut(at) {
            *place = mark;
        }
    }

    fn marked(&self, at: usize) -> Mark {
        match self.marks.as_slice().get(at) {
            Some(mark) => *mark,
            None => Mark::Plain,
        }
    }
}

// Whether another dispatch of a row is the next one of the path.
fn is_next(placed: &Placed, sheet: &Sheet, lets: usize) -> bool {
    match sheet.rows.as_slice().get(placed.row) {
        Some(row) => row.has_position(lets),
        None => false,
    }
}

impl Grading<'_> {
    // Judges an event; why it is refused.
    fn tried(&mut self, placed: &Placed) -> Result<Option<Refused>, AllocError> {
        let lets = self.judge.unit.tenants.len();
        if let Event::Let(..) = placed.event {
            if !is_next(placed, self.sheet, lets) {
                return Ok(Some(Refused::Unordered));
            }
        }
        match self.judge.event(placed.event, None)? {
            Ok(()) => Ok(None),
            Err(why) => self.forgiven(placed, why),
        }
    }

    /// The row names another instruction than the path has there.
    pub(crate) fn is_misnamed(&self, row: usize) -> bool {
        match self.sheet.rows.as_slice().get(row) {
            Some(row) => row.is_squashed || row.pc != row.at,
            None => false,
        }
    }

    // Another instruction or value than the row names: that cell is wrong, and the event is made.
    fn forgiven(&mut self, placed: &Placed, why: Why) -> Result<Option<Refused>, AllocError> {
        match (why, placed.event) {
            (Why::Let(NoLet::OtherPc(_)), Event::Let(Some(_), next))
                if self.is_misnamed(placed.row) && !self.follows_let(placed, why) => {
                let reason = self.reason(placed, Refused::By(why))?;
                self.blame_name(placed, "Instruction", reason)?;
                match self.judge.event(Event::Let(None, next), None)? {
                    Ok(()) => Ok(None),
                    Err(why) => Ok(Some(Refused::By(why))),
                }
            }
            (Why::OtherValue(..) | Why::NoValue(_), _) => {
                let reason = self.reason(placed, Refused::By(why))?;
                self.blame_name(placed, "Value", reason)?;
                Ok(None)
            }
            _ => Ok(Some(Refused::By(why))),
        }
    }

    // A cell that names no cycle is wrong.
    fn blame_name(
        &mut self,
        placed: &Placed,
        column: &'static str,
        reason: String,
    ) -> Result<(), AllocError> {
        let named = Placed {
            is_missing: true,
            ..*placed
        };
        self.blame(&named, column, reason)?;
        Ok(())
    }

    // The event comes in this cycle.
    fn accept(&mut self, at: usize) {
        if let Mark::Wrong(wrong) = self.marked(at) {
            let cycle = self.cycle;
            if let Some(wrong) = self.wrong.as_mut_slice().get_mut(wrong) {
                wrong.earliest = Some(cycle);
            }
        }
        self.mark(at, Mark::Plain);
    }

    // The event waits. Its cell is wrong, unless it only follows from a mistake before.
    fn refuse(&mut self, at: usize, placed: &Placed, refused: Refused) -> Result<(), AllocError> {
        if let Mark::Wrong(_) = self.marked(at) {
            return Ok(());
        }
        if self.follows(at, placed, refused) {
            self.mark(at, Mark::Delayed);
            return Ok(());
        }
        let reason = self.reason(placed, refused)?;
        self.blame_cycle(at, placed, reason)
    }

    // The cell of an event is wrong.
    fn blame_cycle(
        &mut self,
        at: usize,
        placed: &Placed,
        reason: String,
    ) -> Result<(), AllocError> {
        let column = self.sheet.columns.name_of(placed.stage);
        let wrong = self.blame(placed, column, reason)?;
        self.mark(at, Mark::Wrong(wrong));
        Ok(())
    }

    // Judges an event in this cycle; whether it has come.
    fn judge_one(&mut self, at: usize) -> Result<bool, AllocError> {
        let Some(placed) = self.event(at) else {
            return Ok(true);
        };
        if placed.is_missing && matches!(self.marked(at), Mark::Plain) {
            let reason = String::from_str(self.alloc, "is empty")?;
            self.blame_cycle(at, &placed, reason)?;
        }
        match self.tried(&placed)? {
            None => {
                self.accept(at);
                Ok(true)
            }
            Some(refused) => {
                self.refuse(at, &placed, refused)?;
                Ok(false)
            }
        }
    }

    // The events of this cycle and those that wait, in their order.
    fn due(&self, from: usize, to: usize) -> Result<Vec<usize>, AllocError> {
        let mut keys = Vec::new(self.alloc);
        for at in (from..to).chain(self.late.iter().copied()) {
            if let Some(placed) = self.event(at) {
                let (rank, row) = order_within(self.within, &placed);
                keys.push((rank, row, at))?;
            }
        }
        keys.sort()?;
        let mut due = Vec::new(self.alloc);
        for (_, _, at) in keys.iter() {
            due.push(*at)?;
        }
        Ok(due)
    }

    // Judges the events of a cycle and those that wait; whether one has come.
    fn judge_cycle(&mut self, from: usize, to: usize) -> Result<bool, AllocError> {
        let due = self.due(from, to)?;
        let mut has_come = false;
        for at in due.iter() {
            let at = *at;
            let waits = self.late.iter().position(|late| *late == at);
            match (self.judge_one(at)?, waits) {
                (true, Some(place)) if place < self.late.len() => {
                    self.late.remove(place);
                    has_come = true;
                }
                (true, _) => has_come = true,
                (false, None) => self.late.push(at)?,
                (false, Some(_)) => {}
            }
        }
        Ok(has_come)
    }

    // The number of events up to the end of the cycle of the next one.
    fn end_of_cycle(&self, from: usize, cycle: u64) -> usize {
        let mut end = from;
        for at in from..self.sheet.events.len() {
            match self.event(at) {
                Some(placed) if placed.place.cycle <= cycle => end = at.saturating_add(1),
                _ => break,
            }
        }
        end
    }

    // The next cycle in which something can happen.
    fn next_cycle(&self, from: usize, has_come: bool) -> Option<u64> {
        let told = match self.event(from) {
            Some(placed) => Some(placed.place.cycle),
            None => None,
        };
        if has_come && !self.late.is_empty() {
            let next = self.cycle.saturating_add(1);
            return Some(match told {
                Some(told) => told.min(next),
                None => next,
            });
        }
        told
    }

    // Judges all events, cycle by cycle, until none that waits can come.
    fn run(&mut self) -> Result<(), AllocError> {
        let mut from = 0;
        let mut has_come = false;
        for _ in 0..u64::MAX {
            let Some(cycle) = self.next_cycle(from, has_come) else {
                break;
            };
            self.cycle = cycle;
            let to = self.end_of_cycle(from, cycle);
            has_come = self.judge_cycle(from, to)?;
            from = to;
        }
        Ok(())
    }
}

/// The terms on which a table is graded.
#[derive(Clone, Copy)]
pub struct Terms<'a> {
    pub within: Within,
    pub ring: usize,
    pub queue: usize,
    pub limits: Limits<'a>,
}

/// Grades a table. After a cell that is wrong it goes on as if that had the earliest cycle that is possible; what is late only for
/// that is not wrong.
pub fn graded(
    alloc: Global,
    program: &Program,
    sheet: &Sheet,
    terms: &Terms<'_>,
) -> Result<Grade, AllocError> {
    let mut marks = Vec::new(alloc);
    for _ in 0..sheet.events.len() {
        marks.push(Mark::Plain)?;
    }
    let mut grading = Grading {
        alloc,
        sheet,
        judge: Judge::new(alloc, program, terms.ring, terms.queue)?,
        within: terms.within,
        cycle: 0,
        marks,
        late: Vec::new(alloc),
        wrong: Vec::new(alloc),
    };
    grading.run()?;
    Ok(Grade {
        rows: sheet.rows.len(),
        wrong: grading.wrong,
        exceeded: exceeded(alloc, program, sheet, &terms.limits)?,
        has_commits: sheet.columns.has(Stage::Retire),
    })
}
