//! The summary of a listing without a fault.
ghost use Rattle.std.specs.Prelude.{◌≡◌, ◌≤◌, length, IfOk};
ghost use Rattle.lexical.specs.Label.{labels_of};
ghost use Rattle.lexical.specs.Line.{lines_of};
ghost use Rattle.isa.specs.Listing.{labels};
ghost use Rattle.checker.specs.Diagnostics.{counts_text, how_many_labels};

use instructions::Program;
use lexical::{before_comment, next_label, next_line};
use std::alloc::{AllocError, Global};

fn labels_in(code: &[u8]) -> usize
    ensures number { result ≡ length (labels_of code.now) }
    ensures small { result ≤ length code.now }
{
    let mut n = 0;
    let mut rest = code;
    while let Some((_, after)) = next_label(rest) {
        n += 1;
        rest = after;
    }
    n
}

fn how_many_labels(bytes: &[u8]) -> usize
    ensures { result ≡ how_many_labels (lines_of bytes.now) }
{
    let mut n = 0;
    let mut rest = Some(bytes);
    while let Some(text) = rest {
        let (line, after) = next_line(text);
        let code = before_comment(line);
        n += labels_in(code);
        rest = after;
    }
    n
}

/// How many instructions, labels and bytes of data a listing has, a line each.
pub(crate) fn counted(alloc: Global, program: &Program, bytes: &[u8]) -> Result<Vec<u8>, AllocError>
    ensures { IfOk result (λ text. text.items ≡ counts_text (length program.now.code)
        (how_many_labels (lines_of bytes.now)) (length program.now.bytes)) }
{
    let instructions = program.len();
    let labels = how_many_labels(bytes);
    let data = program.size();
    let text = format!(in alloc;
        "instructions {instructions}\nlabels {labels}\nbytes of data {data}\n"
    )?;
    Ok(text.into_bytes())
}
