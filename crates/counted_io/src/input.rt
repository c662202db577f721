//! Reading to the end, up to a number of bytes.

ghost use Rattle.std.specs.Prelude.{◌≡◌, ◌+◌, ◌-◌, ◌^◌, ◌<◌, ◌≤◌, IfOk, IfErr, OnOk, IfSome, length, take, vec_len};
ghost use Rattle.std.specs.Io.KnownBytes.{IsAtEnd};
ghost use Rattle.counted_io.specs.Counted.{failures_of, known_by, Takes, TakesOnto};
ghost use Rattle.counted_io.specs.Replies.{HasRead, IsUnread};

use crate::counted::Counted;
use crate::fault::Fault;
use std::alloc::Global;
use std::io::Read;

// How many bytes one read asks for at most.
const CHUNK: usize = 8192;

// One read, whose bytes go to the end of `bytes`.
fn read_some<R: Read>(
    reader: &mut Counted<R>,
    chunk: &mut [u8],
    bytes: &mut Vec<u8>,
) -> Result<usize, Fault>
    requires room { failures_of reader.old < 2 ^ 64 - 1 }
    requires chunk { 0 < length chunk.old }
    ensures ok { OnOk result (TakesOnto R.remaining reader.old reader.new
        bytes.old.items bytes.new.items) }
    ensures count { IfOk result (λ n. vec_len bytes.new ≡ vec_len bytes.old + n) }
    ensures bound { IfOk result (λ n. n ≤ length chunk.old) }
    ensures end { IfOk result (λ n. n ≡ 0 → IsAtEnd (known_by R.remaining reader.new)) }
    ensures quiet { OnOk result (failures_of reader.new ≡ failures_of reader.old) }
    ensures err { IfErr result (IsUnread R.remaining (length chunk.old) reader.old reader.new) }
{
    let Ok(n) = reader.read(chunk) else {
        return Err(Fault::Read);
    };
    bytes.extend_from_slice(&chunk[..n])?;
    Ok(n)
}

/// The bytes up to the end of the input, but no more than `most` of them: none after those is
/// taken from the reader.
pub fn read_up_to<R: Read>(
    alloc: Global,
    reader: &mut Counted<R>,
    most: usize,
) -> Result<Vec<u8>, Fault>
    requires room { failures_of reader.old < 2 ^ 64 - 1 }
    ensures ok { IfOk result (λ bytes. IfSome (known_by R.remaining reader.old) (λ input.
        bytes.items ≡ take most input)) }
    ensures taken { IfOk result (λ bytes. Takes R.remaining reader.old reader.new bytes.items) }
    ensures bound { IfOk result (λ bytes. vec_len bytes ≤ most) }
    ensures quiet { OnOk result (failures_of reader.new ≡ failures_of reader.old) }
    ensures read { OnOk result (HasRead R.remaining most reader.old reader.new) }
    // What was taken before a fault is a beginning of the input.
    ensures err { IfErr result (IsUnread R.remaining most reader.old reader.new) }
{
    let mut bytes = Vec::new(alloc);
    let mut chunk = [0u8; CHUNK];
    'reads: while bytes.len() < most {
        let want = CHUNK.min(most - bytes.len());
        let n = read_some(reader, &mut chunk[..want], &mut bytes)?;
        if n == 0 {
            break;
        }
    }
    Ok(bytes)
}
