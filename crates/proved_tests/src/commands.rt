//! Command lines, and the runs that they ask for.
mod blamed;
mod few_turns;
mod handed_on;

use command::{Went, asked, go};
use counted_io::Counted;
use pool::Open;
use std::alloc::Global;
use std::convert::AsStr;
use std::sync::Wait;
use std::test::Fail;
use std::thread::Threads;

/// How a listing goes under a command line, and what is written.
fn answer<R: Threads + Wait + Sync, S: AsStr>(
    wait: &R,
    alloc: Global,
    words: &[S],
    listing: &[u8],
) -> Result<(Went, Vec<u8>), Fail> {
    let Ok(asked) = asked(alloc, words) else {
        return Err(Fail::new("there is no run"));
    };
    let mut writer = Counted::new(Vec::new(alloc));
    let mut reader = Some(Counted::new(listing));
    let went = go(wait, alloc, &asked, &mut reader, &mut writer, &Open);
    Ok((went, writer.into_inner()))
}
