//! Runs that end early.
use super::answer;
use crate::failing::LISTING;
use crate::same::same;
use command::Line;
use std::process::Abort;
use std::test::*;

/// The reports after no instruction, after one and after two.
const REPORTS: [&str; 3] = [
    "limit\ncount 0\npc 0x00400000\n",
    "limit\ncount 1\npc 0x00400004\nr1 0x00000005\n",
    "limit\ncount 2\npc 0x00400008\nr1 0x00000005\nr2 0x0000000a\n",
];

#[test]
fn few_turns_end_a_run_at_its_beginning(rt: HostRuntime) -> Result<(), Fail> {
    for (turns, most) in [("1", 1), ("2", 2)] {
        let words = ["ruu", "run", "double.s", "--turns", turns];
        let (went, text) = answer(&rt, rt.alloc(), words.as_slice(), LISTING)?;
        same(&rt, &went.status, &4);
        let Line::Tally(tally) = went.line else {
            return Err(Fail::from("no tally"));
        };
        let count = tally.retires as usize;
        assert!(rt; count <= most, "{count} instructions in {turns} turns");
        assert!(rt; text.as_slice() == REPORTS[count].as_bytes());
    }
    Ok(())
}
