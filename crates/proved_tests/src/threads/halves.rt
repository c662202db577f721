//! Products of runs whose turns run out.
use super::{Shape, plain, report, run_listing};
use pool::{Open, Run};
use std::process::Abort;
use std::test::*;

const SQUARE: &[u8] = b"addiu $1,$0,3\nmult $1,$1\nbreak\n";

/// How a run of it may end before its end: nothing is seen of one half alone.
const BEGINNINGS: [&str; 3] = [
    "limit\ncount 0\npc 0x00400000\n",
    "limit\ncount 1\npc 0x00400004\nr1 0x00000003\n",
    "limit\ncount 2\npc 0x00400008\nr1 0x00000003\nlo 0x00000009\n",
];

#[test]
fn no_half_is_seen_where_turns_run_out(rt: HostRuntime) -> Result<(), Fail> {
    for turns in 1..40 {
        let shape = Shape { turns, ..plain(1) };
        let run = run_listing(&rt, rt.alloc(), SQUARE, &shape, &Open)?;
        let text = report(rt.alloc(), &run)?;
        let begins = BEGINNINGS
            .iter()
            .any(|beginning| text.as_bytes() == beginning.as_bytes());
        assert!(rt; matches!(run, Run::Ended(..)) || begins);
    }
    Ok(())
}
