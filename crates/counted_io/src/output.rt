//! Writing a whole text.

ghost use Rattle.std.specs.Prelude.{◌≡◌, ◌+◌, ◌-◌, ◌^◌, ◌<◌, OnOk, OnErr};
ghost use Rattle.counted_io.specs.Counted.{failures_of, Gives, GivesPart};
ghost use Rattle.counted_io.specs.Writes.{IsBeginningOf, IsWritten, Writes};

use crate::counted::Counted;
use crate::fault::Fault;
use std::alloc::AllocError;
use std::io::Write;

/// The writer failed, or took no byte. There is no second try.
#[derive(Clone, Copy, Debug, PartialEq, Eq)]
pub struct WriteFailed;

/// Writes the text, in as many calls as the writer asks for.
pub fn write_whole<W: Write>(writer: &mut Counted<W>, text: &[u8]) -> Result<(), WriteFailed>
    requires room { failures_of writer.old < 2 ^ 64 - 1 }
    ensures ok { OnOk result (Gives W.contents writer.old writer.new text.now) }
    ensures quiet { OnOk result (failures_of writer.new ≡ failures_of writer.old) }
    // What went out before the writer failed is a proper beginning of the text.
    ensures err { OnErr result (GivesPart W.contents writer.old writer.new text.now) }
    ensures failed { OnErr result (failures_of writer.new ≡ failures_of writer.old + 1) }
{
    let mut done = 0;
    'writes: while done < text.len() {
        match writer.write(&text[done..]) {
            Ok(0) | Err(_) => return Err(WriteFailed),
            Ok(n) => done += n,
        }
    }
    Ok(())
}

/// Writes a text, if there was memory to make it, in as many calls as the writer asks for.
pub fn write_text<W: Write>(
    writer: &mut Counted<W>,
    text: Result<String, AllocError>,
) -> Result<(), Fault>
    requires room { failures_of writer.old < 2 ^ 64 - 1 }
    ensures { Writes W.contents writer.old writer.new (λ _. IsWritten text) (IsBeginningOf text) result }
{
    let text = text?;
    write_whole(writer, text.as_str().as_bytes())?;
    Ok(())
}
