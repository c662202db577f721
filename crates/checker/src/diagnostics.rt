//! The diagnostics of a listing.
ghost use Rattle.std.specs.Prelude.{IfOk};
ghost use Rattle.isa.specs.Listing.{listing};
ghost use Rattle.checker.specs.Diagnostics.{IsCheckOf};
ghost use Rattle.checker.specs.Names.{name_text};

use crate::explanation::explained;
use crate::file_name::shown_name;
use crate::summary::counted;
use crate::warnings::push_warnings;
use isa::{FaultKind, parse_marked};
use std::alloc::{AllocError, Global};

// The status and the text for a listing, with the name of its file as it is shown.
fn diagnosed(
    alloc: Global,
    file: &[u8],
    bytes: &[u8],
    all: bool,
) -> Result<(u8, Vec<u8>), AllocError>
    ensures { IfOk result (λ found.
        IsCheckOf file.now all bytes.now (listing bytes.now) found.0 found.1.items) }
{
    match parse_marked(alloc, bytes) {
        Ok((program, lines)) => {
            let mut text = counted(alloc, &program, bytes)?;
            push_warnings(alloc, &mut text, file, bytes, &program, lines.as_slice())?;
            Ok((0, text))
        },
        Err(found) if found.fault.kind == FaultKind::Memory => Err(AllocError),
        Err(found) => {
            let text = explained(alloc, file, bytes, all, found)?;
            Ok((2, text))
        },
    }
}

/// The status and the text for a listing, with the name of its file. Without a fault the status is 0, and the text has
/// the numbers of instructions, labels and bytes of data, and warnings. With a fault the status is 2, and the text is
/// the line that a report has for that fault, and the diagnostic of the fault, or where `all` are wanted those of the first
/// fault of each line.
pub fn diagnostics(
    alloc: Global,
    file: &str,
    bytes: &[u8],
    all: bool,
) -> Result<(u8, Vec<u8>), AllocError>
    ensures ok { IfOk result (λ found.
        IsCheckOf (name_text file.now) all bytes.now (listing bytes.now) found.0 found.1.items) }
{
    let name = shown_name(alloc, file)?;
    diagnosed(alloc, name.as_slice(), bytes, all)
}
