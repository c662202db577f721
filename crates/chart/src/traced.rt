//! A run that is traced, turn by turn.
ghost use Rattle.std.specs.Prelude.{◌≡◌, IfNone, IfOk, IfSome};
ghost use Rattle.inorder.specs.Runs.{end_state};
ghost use Rattle.chart.specs.Rows.{kept};
ghost use Rattle.chart.specs.Traced.{HasTraced, HasTurned, IsDone, IsTraced, Plan, is_last as is_last_of, plan};

use crate::event::Event;
use crate::lines::Style;
use crate::live_rows::LiveRows;
use command_line::{Chosen, RunRequest, choose};
use instructions::{End, Memory, Program};
use one_thread::{Bench, Order, Turn};
use std::alloc::{AllocError, Global};

/// A run of the one-thread unit so far, the rows of its live tenants, and the lines that are drawn.
#[derive(Drop)]
pub(crate) struct Traced<'a> {
    bench: Bench<'a, Chosen>,
    order: Order,
    rows: LiveRows,
    limit: u64,
    is_over: bool,
}

/// A run that was traced to its end.
#[derive(Drop)]
pub(crate) struct Drawn {
    pub(crate) end: End,
    pub(crate) rows: LiveRows,
}

// Whether a turn ends the run.
fn is_last(answer: Turn) -> bool
    ensures { result ≡ is_last_of answer }
{
    match answer {
        Turn::Over(_) => true,
        _ => false,
    }
}

impl<'a> Traced<'a> {
    /// The run that is asked for, before its first turn.
    pub(crate) fn new(
        alloc: Global,
        asked: &RunRequest<'_>,
        program: &'a Program,
        style: Style,
    ) -> Result<Traced<'a>, Memory>
        ensures { IfOk result (HasTraced (plan asked.now program.now style)) }
    {
        let predictor = choose(asked.predictor);
        let bench = Bench::new(alloc, program, &asked.config, predictor)?;
        let order = Order::by_seed(asked.seed);
        let rows = LiveRows::new(alloc, style);
        let limit = u64::from(asked.config.limit());
        Ok(Traced {
            bench,
            order,
            rows,
            limit,
            is_over: false,
        })
    }

    /// Makes the next turn, if one is due: until the unit has ended, or its count has reached the limit. The result is what
    /// became of the tenants.
    pub(crate) fn turn(&mut self, alloc: Global) -> Result<Option<Vec<Event>>, AllocError>
        ensures turned { IfOk result (λ next. IfSome next (λ events. (p : Plan) →
            (before : HasTraced p self.old) → HasTurned p self.old self.new before events.items)) }
        ensures done { IfOk result (λ next. IfNone next (IsDone self.old self.new)) }
    {
        if self.is_over {
            return Ok(None);
        }
        if self.limit <= self.bench.count() {
            return Ok(None);
        }
        let answer = self.bench.turn_by(&mut self.order);
        self.is_over = is_last(answer);
        let events = self.rows.turn(alloc, answer, &self.bench)?;
        Ok(Some(events))
    }
}

/// Makes the run that is asked for.
pub(crate) fn trace_all(
    alloc: Global,
    asked: &RunRequest<'_>,
    program: &Program,
    style: Style,
) -> Result<Drawn, Memory>
    ensures { IfOk result (λ drawn. IsTraced (plan asked.now program.now style)
        (end_state drawn.end) (kept drawn.rows)) }
{
    let mut traced = Traced::new(alloc, asked, program, style)?;
    'turns: while let Some(_) = traced.turn(alloc)? {}
    let Traced {
        bench,
        mut rows,
        limit,
        ..
    } = traced;
    rows.close()?;
    let end = bench.run(limit);
    Ok(Drawn { end, rows })
}
