//! A run of the one-thread unit.
ghost use Rattle.std.specs.Prelude.{◌≡◌, ◌-◌, ◌^◌, ◌<◌, IfOk, IfErr, true, string_bytes};
ghost use Rattle.answers.specs.Answer.{most_taken};
ghost use Rattle.counted_io.specs.Counted.{failures_of};
ghost use Rattle.counted_io.specs.Replies.{HasReplied};
ghost use Rattle.inorder.specs.Runs.{end_of, end_state};
ghost use Rattle.command_line.specs.Answered.{IsUnansweredBy};
ghost use Rattle.command_line.specs.Exits.{IsOfOneThread};
ghost use Rattle.command_line.specs.Predictors.{IsChosen};
ghost use Rattle.command_line.specs.declared.exit.Line.TheVariants.{Nothing};
ghost use Rattle.on_threads.specs.Answers.{IsAnswerTo, IsSomeAnswerTo, IsTold};
ghost use Rattle.on_threads.specs.Runs.{line_of};

use crate::{Asked, Line, Refusal};
use answers::{Status, read_listing};
use bench::{run, run_by};
use command_line::{Chosen, Exit, choose};
use counted_io::{Counted, write_whole};
use instructions::{End, Memory, Program};
use isa::report_text;
use on_threads::written;
use one_thread::Seeded;
use std::alloc::Global;
use std::io::{Read, Write};

/// Reads a listing, runs it on the one-thread unit in the order that is asked for, and writes the report of its run, or the
/// line of its fault.
pub(crate) fn answered<R: Read, W: Write>(
    alloc: Global,
    asked: &Asked<'_>,
    reader: &mut Counted<R>,
    writer: &mut Counted<W>,
) -> Result<Exit, Refusal>
    requires alone { asked.now.alone ≡ true }
    requires reader_room { failures_of reader.old < 2 ^ 64 - 1 }
    requires writer_room { failures_of writer.old < 2 ^ 64 - 1 }
    ensures ok { IfOk result (λ exit. HasReplied R.remaining W.contents most_taken
        reader.old reader.new writer.old writer.new (IsAnswerTo asked.now exit)) }
    ensures line { IfOk result (λ exit. exit.line ≡ Nothing) }
    ensures alone { IsOfOneThread (line_of result) }
    ensures err { IfErr result (IsUnansweredBy R.remaining W.contents most_taken
        reader.old reader.new writer.old writer.new (IsSomeAnswerTo asked.now)) }
{
    let listing = read_listing(alloc, reader)?;
    let (exit, text) = tell(alloc, asked, listing, choose(asked.predictor))?;
    write_whole(writer, text.as_str().as_bytes())?;
    Ok(exit)
}

// Runs the program of a listing on the one-thread unit with the predictor that is asked for: how it went, and its report; or
// the line of the listing's fault.
fn tell(
    alloc: Global,
    asked: &Asked<'_>,
    listing: Result<Program, String>,
    predictor: Chosen,
) -> Result<(Exit, String), Memory>
    requires alone { asked.now.alone ≡ true }
    requires predictor { IsChosen asked.now.predictor predictor }
    ensures ok { IfOk result (λ told. IsTold asked.now listing (string_bytes told.1) told.0) }
    ensures line { IfOk result (λ told. told.0.line ≡ Nothing) }
{
    let program = match listing {
        Ok(program) => program,
        Err(line) => return Ok((written(Status::TextFault, Line::Nothing), line)),
    };
    let end = ended(alloc, asked, &program, predictor)?;
    let text = report_text(alloc, &end)?;
    let status = Status::of(end.outcome);
    Ok((written(status, Line::Nothing), text))
}

// Runs a program on the one-thread unit, by the choices of the seed where there is one.
fn ended(
    alloc: Global,
    asked: &Asked<'_>,
    program: &Program,
    predictor: Chosen,
) -> Result<End, Memory>
    ensures { IfOk result (λ end. end_state end ≡ end_of program.now asked.now.config.limit) }
{
    match asked.seed {
        None => run(alloc, program, &asked.config, predictor),
        Some(seed) => {
            let mut chooser = Seeded::new(seed);
            run_by(alloc, program, &asked.config, predictor, &mut chooser)
        }
    }
}
