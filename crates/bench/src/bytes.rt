//! From the bytes of a reader to the bytes of a writer.
ghost use Rattle.std.specs.Prelude.{◌≡◌, ◌-◌, ◌^◌, ◌<◌, ℕ, List, IfOk, IfErr, string_bytes};
ghost use Rattle.isa.specs.Listing.{listing};
ghost use Rattle.counted_io.specs.Counted.{failures_of};
ghost use Rattle.counted_io.specs.Replies.{HasReplied, IsUnanswered};
ghost use Rattle.answers.specs.Answer.{HasAnAnswer, IsAnswerAlone, most_taken};
ghost use Rattle.answers.specs.Parsed.{IsParsed};

use answers::{Status, read_listing};
use counted_io::{Counted, Fault, write_whole};
use instructions::{Config, Memory, Predictor, Program};
use isa::report_text;
use std::alloc::Global;
use std::io::{Read, Write};
use streaming::run;

/// Reads a listing, runs it up to the limit of the configuration, and writes the report of the run;
/// or writes the line of the listing's first fault. No more is taken from the reader than it needs to
/// know that a listing is too long. A device that failed is not tried again.
pub fn alone<R: Read, W: Write, P: Predictor + Drop>(
    alloc: Global,
    reader: &mut Counted<R>,
    writer: &mut Counted<W>,
    config: &Config,
    predictor: P,
) -> Result<Status, Fault>
    requires reader_room { failures_of reader.old < 2 ^ 64 - 1 }
    requires writer_room { failures_of writer.old < 2 ^ 64 - 1 }
    // The status and the text are those of the reader's bytes.
    ensures ok { IfOk result (λ status. HasReplied R.remaining W.contents most_taken
        reader.old reader.new writer.old writer.new (IsAnswerAlone config.now.limit status)) }
    // Each device is blamed for one failed call, and only then.
    ensures err { IfErr result (IsUnanswered R.remaining W.contents most_taken
        reader.old reader.new writer.old writer.new (HasAnAnswer config.now.limit)) }
{
    let found = read_listing(alloc, reader)?;
    let (status, text) = answer(alloc, found, config, predictor)?;
    write_whole(writer, text.as_str().as_bytes())?;
    Ok(status)
}

// The outcome of a listing, and the text for it: the report of its run, or the line of its fault.
#[tactic(auto, unfolding(answers::specs::Answer::text_of, answers::specs::Answer::status_of))]
fn answer<P: Predictor + Drop>(
    alloc: Global,
    found: Result<Program, String>,
    config: &Config,
    predictor: P,
) -> Result<(Status, String), Memory>
    ensures { IfOk result (λ answer. (input : List ℕ) → IsParsed found (listing input) →
        IsAnswerAlone config.now.limit answer.0 input (string_bytes answer.1)) }
{
    match found {
        Ok(program) => {
            let end = run(alloc, &program, config, predictor)?;
            let text = report_text(alloc, &end)?;
            Ok((Status::of(end.outcome), text))
        },
        Err(line) => Ok((Status::TextFault, line)),
    }
}
