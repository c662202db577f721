//! From the bytes of a reader to the listing that a writer gets.
ghost use Rattle.std.specs.Prelude.{◌≡◌, ◌-◌, ◌^◌, ◌<◌, IfErr, IfOk, OnOk, string_bytes};
ghost use Rattle.counted_io.specs.Counted.{failures_of};
ghost use Rattle.counted_io.specs.Replies.{HasReplied};
ghost use Rattle.listing.specs.Listings.{IsListingOf, IsReasonFor, IsUnlisted, most_of_file};

use crate::no_listing::NoListing;
use counted_io::{Counted, read_up_to, write_whole};
use disassembly::listing_of;
use std::alloc::Global;
use std::io::{Read, Write};

/// One byte more than a file may have.
const MOST_TAKEN: usize = 16_777_217;

/// Reads an executable to its end and writes its listing: what `parse` makes of it is exactly the
/// program that the words and bytes of the executable mean. A device that failed is not tried again. The bytes of the
/// executable are kept, for who tells more of it.
pub fn convert<R: Read, W: Write>(
    alloc: Global,
    reader: &mut Counted<R>,
    writer: &mut Counted<W>,
    kept: &mut Vec<u8>,
) -> Result<(), NoListing>
    requires reader_room { failures_of reader.old < 2 ^ 64 - 1 }
    requires writer_room { failures_of writer.old < 2 ^ 64 - 1 }
    // What was written whole is a listing of the reader's bytes.
    ensures ok { OnOk result (HasReplied R.remaining W.contents most_of_file
        reader.old reader.new writer.old writer.new IsListingOf) }
    // A device is blamed for one failed call, and only then; a refusal is that of the reader's bytes.
    ensures err { IfErr result (IsUnlisted R.remaining W.contents
        reader.old reader.new writer.old writer.new) }
{
    let file = read_up_to(alloc, reader, MOST_TAKEN)?;
    *kept = file;
    let text = listing(alloc, kept.as_slice())?;
    write_whole(writer, text.as_str().as_bytes())?;
    Ok(())
}

// The listing of a file, if that is not too long.
fn listing(alloc: Global, file: &[u8]) -> Result<String, NoListing>
    ensures ok { IfOk result (λ text. IsListingOf file.now (string_bytes text)) }
    ensures err { IfErr result (IsReasonFor file.now) }
{
    if file.len() >= MOST_TAKEN {
        return Err(NoListing::TooLong);
    }
    Ok(listing_of(alloc, file)?)
}
