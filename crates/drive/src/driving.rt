//! A unit that is driven from standard input.
use crate::interactive::go_by_hand;
use command_line::{ByHand, Exit, Refusal, refused};
use counted_io::Counted;
use std::fs::File;
use std::io::{self, BufReader, IsTerminal, Read};
use std::sync::Wait;

// What stands before a command on a terminal. It goes to standard error: standard output has answers
// alone.
const PROMPT: &str = "> ";

/// Shows a prompt, where one is wanted, each time that it waits for more.
#[derive(Drop)]
struct Prompting<'a, R> {
    rt: &'a HostRuntime,
    input: R,
    is_wanted: bool,
}

impl<R: Read> Read for Prompting<'_, R> {
    // A failure to print changes nothing.
    fn read(&mut self, buf: &mut [u8]) -> io::Result<usize> {
        if self.is_wanted {
            let _ = eprint!(self.rt; "{PROMPT}");
        }
        self.input.read(buf)
    }
}

/// Drives the unit of a listing by the commands on standard input, with a prompt on a terminal unless
/// it is unwanted.
pub fn drive<T: Wait>(rt: &HostRuntime, wait: &T, hand: &ByHand<'_>) -> Exit {
    let input = Prompting {
        rt,
        input: rt.stdin(),
        is_wanted: !hand.quiet_prompt && rt.stdin().is_terminal() && rt.stderr().is_terminal(),
    };
    let Ok(mut script) = BufReader::new(rt.alloc(), input) else {
        return refused(Refusal::Memory);
    };
    let reader = File::open(rt, hand.file).ok().map(Counted::new);
    let mut writer = Counted::new(rt.stdout());
    go_by_hand(wait, rt.alloc(), hand, reader, &mut script, &mut writer)
}
