//! The program `drive`, which is `./ruu drive`: its words, its file and its standard streams.
#![tactic(auto)]

mod driving;
mod interactive;

use command_line::{REFUSED, end, parse_drive, refuse, words};
use counted_io::ClosedStreams;
use driving::drive;
use std::process::ExitCode;

fn main(rt: HostRuntime) -> ExitCode {
    let Ok(_closed) = ClosedStreams::taken(&rt) else {
        return ExitCode::from(REFUSED);
    };
    let words = match words(&rt) {
        Ok(words) => words,
        Err(no_run) => return refuse(&rt, &no_run),
    };
    match parse_drive(rt.alloc(), words.as_slice()) {
        Ok(hand) => end(&rt, drive(&rt, &rt, &hand)),
        Err(no_run) => refuse(&rt, &no_run),
    }
}
