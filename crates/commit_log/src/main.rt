//! The program `commit_log`, which is `./ruu commits FILE`: its words, its file and its standard streams.
#![tactic(auto)]

mod answering;
mod change;
mod digits;
mod fetched;
mod hash;
mod laws;
mod line;
mod logging;
mod pipe;
mod word;

use answering::log_commits;
use command_line::{
    Exit, Line, Logged, REFUSED, end, is_standard_input, parse_commits, refuse, words,
};
use counted_io::{ClosedStreams, Counted};
use pipe::Pipe;
use std::fs::File;
use std::io::Read;
use std::process::ExitCode;

fn main(rt: HostRuntime) -> ExitCode {
    match ClosedStreams::taken(&rt) {
        Ok(_closed) => log_asked(&rt),
        Err(_) => ExitCode::from(REFUSED),
    }
}

// Writes the log that the words ask for.
fn log_asked(rt: &HostRuntime) -> ExitCode {
    let words = match words(rt) {
        Ok(words) => words,
        Err(no_run) => return refuse(rt, &no_run),
    };
    match parse_commits(rt.alloc(), words.as_slice()) {
        Ok(asked) => log(rt, &asked),
        Err(no_run) => refuse(rt, &no_run),
    }
}

fn log(rt: &HostRuntime, asked: &Logged<'_>) -> ExitCode {
    if is_standard_input(asked.file) {
        return log_from(rt, asked, Some(rt.stdin()));
    }
    log_from(rt, asked, File::open(rt, asked.file).ok())
}

// Nothing is told where nobody reads any more.
fn log_from<R: Read + Drop>(rt: &HostRuntime, asked: &Logged<'_>, input: Option<R>) -> ExitCode {
    let mut reader = input.map(Counted::new);
    let mut writer = Counted::new(Pipe::new(rt.stdout()));
    let exit = log_commits(rt.alloc(), asked, &mut reader, &mut writer);
    if writer.into_inner().is_gone() {
        return end(
            rt,
            Exit {
                line: Line::Nothing,
                ..exit
            },
        );
    }
    end(rt, exit)
}
