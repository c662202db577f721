//! A listing that is read and parsed.
ghost use Rattle.std.specs.Prelude.{◌≡◌, ◌-◌, ◌^◌, ◌<◌, IfErr, IfOk, IfSome, OnOk};
ghost use Rattle.isa.specs.Listing.{listing};
ghost use Rattle.counted_io.specs.Counted.{failures_of, known_by};
ghost use Rattle.counted_io.specs.Replies.{HasRead, IsUnread};
ghost use Rattle.answers.specs.Answer.{most_taken};
ghost use Rattle.answers.specs.Parsed.{IsParsed};

use counted_io::{Counted, Fault, read_up_to};
use instructions::Program;
use isa::{FaultKind, fault_text, parse};
use std::alloc::Global;
use std::io::Read;

/// The most bytes of a listing that are taken: one more than it may have.
pub const MOST_TAKEN: usize = 4_194_305;

/// Reads a listing: its program, or the line of its first fault. No more is taken from the reader than it needs to know
/// that a listing is too long. A reader that failed is not tried again.
pub fn read_listing<R: Read>(
    alloc: Global,
    reader: &mut Counted<R>,
) -> Result<Result<Program, String>, Fault>
    requires { failures_of reader.old < 2 ^ 64 - 1 }
    // The program, or the line, is that of the reader's bytes.
    ensures ok { IfOk result (λ found. IfSome (known_by R.remaining reader.old) (λ input.
        IsParsed found (listing input))) }
    ensures read { OnOk result (HasRead R.remaining most_taken reader.old reader.new) }
    // The reader is blamed for one failed call, and only then.
    ensures err { IfErr result (IsUnread R.remaining most_taken reader.old reader.new) }
{
    let listing = read_up_to(alloc, reader, MOST_TAKEN)?;
    parsed(alloc, listing.as_slice())
}

// The program of a listing, or the line of its first fault.
fn parsed(alloc: Global, bytes: &[u8]) -> Result<Result<Program, String>, Fault>
    ensures ok { IfOk result (λ found. IsParsed found (listing bytes.now)) }
    ensures err { IfErr result (λ fault. fault ≡ Fault.Memory) }
{
    match parse(alloc, bytes) {
        Ok(program) => Ok(Ok(program)),
        Err(fault) if fault.kind == FaultKind::Memory => Err(Fault::Memory),
        Err(fault) => Ok(Err(fault_text(alloc, &fault)?)),
    }
}
