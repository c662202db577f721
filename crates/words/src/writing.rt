//! Writing the words of a program.
ghost use Rattle.std.specs.Prelude.{◌≡◌, ◌-◌, ◌^◌, ◌<◌, OnOk};
ghost use Rattle.counted_io.specs.Counted.{failures_of, known_by};
ghost use Rattle.words.specs.Encoded.{HasWords};

use crate::encoded::words_of;
use crate::lines::text_of;
use crate::no_words::NoWords;
use counted_io::{Counted, write_whole};
use instructions::Program;
use std::alloc::Global;
use std::io::Write;

/// Writes the words of a program and of its data, each after its address.
pub fn write_words<W: Write>(
    alloc: Global,
    program: &Program,
    writer: &mut Counted<W>,
) -> Result<(), NoWords>
    requires { failures_of writer.old < 2 ^ 64 - 1 }
    ensures { OnOk result (HasWords program.now
        (known_by W.contents writer.old) (known_by W.contents writer.new)) }
{
    let words = words_of(alloc, program)?;
    let text = text_of(alloc, words.as_slice(), program.bytes())?;
    write_whole(writer, text.as_str().as_bytes())?;
    Ok(())
}
