//! The program `chart`, which is `./ruu chart FILE`: its words, its files and its standard streams.
#![tactic(auto)]

mod answering;
mod blocked;
mod drawing;
mod event;
mod kanata;
mod laws;
mod lines;
mod live_rows;
mod log_file;
mod pictures;
mod row;
mod source;
mod traced;
mod waits;

use answering::chart;
use command_line::{Charted, REFUSED, end, is_standard_input, parse_chart, refuse, words};
use counted_io::{ClosedStreams, Counted};
use log_file::{NoLog, open_log};
use std::fs::{File, Metadata};
use std::io::Read;
use std::path::Path;
use std::process::ExitCode;

// The link behind which the system keeps standard input.
const STANDARD_INPUT: &str = "/dev/stdin";

fn main(rt: HostRuntime) -> ExitCode {
    let Ok(_closed) = ClosedStreams::taken(&rt) else {
        return ExitCode::from(REFUSED);
    };
    let words = match words(&rt) {
        Ok(words) => words,
        Err(no_run) => return refuse(&rt, &no_run),
    };
    match parse_chart(rt.alloc(), words.as_slice()) {
        Ok(asked) => start(&rt, &asked),
        Err(no_run) => refuse(&rt, &no_run),
    }
}

fn start(rt: &HostRuntime, asked: &Charted<'_>) -> ExitCode {
    if is_standard_input(asked.run.file) {
        let metadata = Path::new(STANDARD_INPUT).metadata(rt);
        return chart_from(rt, asked, Some(rt.stdin()), metadata.ok());
    }
    let listing = File::open(rt, asked.run.file).ok();
    let metadata = listing.as_ref().and_then(|file| file.metadata().ok());
    chart_from(rt, asked, listing, metadata)
}

// No log is begun where the listing did not open.
fn chart_from<R: Read + Drop>(
    rt: &HostRuntime,
    asked: &Charted<'_>,
    input: Option<R>,
    listing: Option<Metadata>,
) -> ExitCode {
    let mut reader = input.map(Counted::new);
    let mut writer = Counted::new(rt.stdout());
    match asked.log {
        Some(path) if reader.is_some() => match open_log(rt, path, listing) {
            Ok(file) => {
                let mut log = Counted::new(file);
                end(
                    rt,
                    chart(rt.alloc(), asked, &mut reader, &mut writer, &mut log),
                )
            },
            Err(no_log) => refuse_log(rt, path, &no_log),
        },
        _ => {
            let mut log = Counted::new(Vec::new(rt.alloc()));
            end(
                rt,
                chart(rt.alloc(), asked, &mut reader, &mut writer, &mut log),
            )
        },
    }
}

// A failure to print changes no status.
fn refuse_log(rt: &HostRuntime, path: &str, no_log: &NoLog) -> ExitCode {
    let _ = eprintln!(rt; "ruu: {path}: {no_log}");
    ExitCode::from(no_log.status())
}
