//! The program `checker`, which is `./ruu check FILE`: its words, its file and its standard streams.
#![tactic(auto)]

mod checking;
mod diagnostics;
mod explanation;
mod faults;
mod file_name;
mod forms;
mod marks;
mod names;
mod parts;
mod quoting;
mod reach;
mod remedies;
mod spot;
mod summary;
mod warnings;

use checking::check;
use command_line::{Checked, REFUSED, end, is_standard_input, parse_check, refuse, words};
use counted_io::{ClosedStreams, Counted};
use std::fs::File;
use std::io::Read;
use std::process::ExitCode;

fn main(rt: HostRuntime) -> ExitCode {
    let Ok(_closed) = ClosedStreams::taken(&rt) else {
        return ExitCode::from(REFUSED);
    };
    let words = match words(&rt) {
        Ok(words) => words,
        Err(no_run) => return refuse(&rt, &no_run),
    };
    match parse_check(rt.alloc(), words.as_slice()) {
        Ok(asked) => check_file(&rt, &asked),
        Err(no_run) => refuse(&rt, &no_run),
    }
}

// Checks a file; one that does not open is named with the system's reason.
fn check_file(rt: &HostRuntime, asked: &Checked<'_>) -> ExitCode {
    let file = asked.file;
    if is_standard_input(file) {
        return check_from(rt, asked, rt.stdin());
    }
    match File::open(rt, file) {
        Ok(listing) => check_from(rt, asked, listing),
        Err(reason) => {
            let _ = eprintln!(rt; "ruu: {file}: {reason}");
            ExitCode::from(REFUSED)
        },
    }
}

fn check_from<R: Read + Drop>(rt: &HostRuntime, asked: &Checked<'_>, input: R) -> ExitCode {
    let mut reader = Some(Counted::new(input));
    let mut writer = Counted::new(rt.stdout());
    let exit = check(rt.alloc(), asked, &mut reader, &mut writer);
    end(rt, exit)
}
