//! What became of each instruction of a run: its chart and its log.
ghost use Rattle.std.specs.Prelude.{◌-◌, ◌^◌, ◌<◌, Ok};
ghost use Rattle.counted_io.specs.Counted.{failures_of};
ghost use Rattle.counted_io.specs.Writes.{Writes};
ghost use Rattle.chart.specs.Answers.{HasBegunFrom, HasTextFrom, IsShown, IsShownInPart, log_head};

use crate::drawing::chart_text;
use crate::kanata::{HEAD, turn_text};
use crate::lines::Style;
use crate::source::Source;
use crate::traced::{Traced, trace_all};
use answers::Status;
use command_line::Charted;
use counted_io::{Counted, Fault, write_text, write_whole};
use instructions::Program;
use isa::report_text;
use std::alloc::Global;
use std::io::Write;

/// Writes the report of the run that is asked for, and after it the chart. The result is the status of the run.
pub(crate) fn draw<W: Write>(
    alloc: Global,
    asked: &Charted<'_>,
    source: &Source<'_>,
    program: &Program,
    writer: &mut Counted<W>,
) -> Result<Status, Fault>
    requires { failures_of writer.old < 2 ^ 64 - 1 }
    ensures { Writes W.contents writer.old writer.new
        (IsShown asked.now.run.config.limit (Ok program.now))
        (IsShownInPart asked.now.run.config.limit (Ok program.now)) result }
{
    let style = Style {
        rows: asked.rows,
        by_leave: asked.by_leave,
    };
    let drawn = trace_all(alloc, &asked.run, program, style)?;
    let report = report_text(alloc, &drawn.end)?;
    write_whole(writer, report.as_str().as_bytes())?;
    write_text(writer, chart_text(alloc, source, &drawn.rows))?;
    Ok(Status::of(drawn.end.outcome))
}

/// Makes the run that is asked for once more, and writes its log turn by turn.
pub(crate) fn trace<L: Write>(
    alloc: Global,
    asked: &Charted<'_>,
    source: &Source<'_>,
    program: &Program,
    log: &mut Counted<L>,
) -> Result<(), Fault>
    requires { failures_of log.old < 2 ^ 64 - 1 }
    ensures { Writes L.contents log.old log.new
        (λ _. HasTextFrom log_head) (HasBegunFrom log_head) result }
{
    let style = Style {
        rows: 0,
        by_leave: false,
    };
    let mut traced = Traced::new(alloc, &asked.run, program, style)?;
    write_whole(log, HEAD.as_bytes())?;
    'turns: while let Some(events) = traced.turn(alloc)? {
        write_text(log, turn_text(alloc, source, events.as_slice()))?;
    }
    Ok(())
}
