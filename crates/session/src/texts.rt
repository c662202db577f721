//! The lines of answers, and of a program.
ghost use Rattle.std.specs.Prelude.{◌≡◌, IfOk, string_bytes};
ghost use Rattle.session.specs.Texts.{BeginsWith, IsLineOf, refused_line, reply_words};

use crate::answer_words::{Words, refusal_text};
use crate::replies::{Refusal, Reply};
use crate::shown::{More, Shown};
use instructions::Program;
use isa::{Hexadecimal, report_text};
use std::alloc::{AllocError, Global};

// The line of an answer: its words and numbers, and what is shown beside them. A report has lines of its own.
fn text_of(alloc: Global, program: &Program, reply: &Reply) -> Result<String, AllocError>
    ensures { IfOk result (λ text. BeginsWith (string_bytes text) (reply_words reply.now)) }
{
    let mut text = format!(in alloc; "{}", Words(reply))?;
    let more = format!(in alloc; "{}\n", More { program, reply })?;
    text.push_str(more.as_str())?;
    Ok(text)
}

fn refused_line(alloc: Global, number: u64, refusal: Refusal) -> Result<String, AllocError>
    ensures { IfOk result (λ text. string_bytes text ≡ refused_line number refusal) }
{
    let why = refusal_text(refusal);
    format!(in alloc; "line {number}: {why}\n")
}

/// The text of an answer with the end of its line, which a report has itself. A refusal names the line of the script.
pub fn line_of(
    alloc: Global,
    program: &Program,
    number: u64,
    reply: &Reply,
) -> Result<String, AllocError>
    ensures { IfOk result (λ text. IsLineOf number reply.now (string_bytes text)) }
{
    match reply {
        Reply::Refused(refusal) => refused_line(alloc, number, *refusal),
        Reply::Report(end) => report_text(alloc, end),
        _ => text_of(alloc, program, reply),
    }
}

/// A line for each instruction of a program: its pc, its index and its text.
pub(crate) fn list(alloc: Global, program: &Program) -> Result<String, AllocError> {
    let mut out = String::new(alloc);
    for index in 0..program.len() {
        let pc = Hexadecimal(Program::START + 4 * index as u32);
        let instr = Shown(Some(*program.instr(index)));
        write!(&mut out, "{pc} {index}{instr}\n")?;
    }
    Ok(out)
}
