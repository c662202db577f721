//! The program `ruu`, which is `./ruu run` with `--alone` too: its words, its file and its standard streams.
#![tactic(auto)]

use command::go;
use command_line::{Asked, NoRun, REFUSED, asked, end, is_standard_input, refuse, words};
use counted_io::{ClosedStreams, Counted};
use on_threads::{ProgressWatcher, watch};
use std::fs::File;
use std::io::Read;
use std::process::ExitCode;
use std::sync::Wait;
use std::thread::Threads;

fn main(rt: HostRuntime) -> ExitCode {
    let Ok(_closed) = ClosedStreams::taken(&rt) else {
        return ExitCode::from(REFUSED);
    };
    let words = match words(&rt) {
        Ok(words) => words,
        Err(no_run) => return refuse(&rt, &no_run),
    };
    match asked(rt.alloc(), words.as_slice()) {
        Ok(asked) => start(&rt, &rt, &asked),
        Err(no_run) => refuse(&rt, &no_run),
    }
}

fn start<T: Threads + Wait + Sync>(wait: &T, rt: &HostRuntime, asked: &Asked<'_>) -> ExitCode {
    let Ok(watcher) = watch(rt, asked) else {
        return refuse(rt, &NoRun::Memory);
    };
    if is_standard_input(asked.file) {
        run_from(wait, rt, asked, Some(rt.stdin()), &watcher)
    } else {
        run_from(wait, rt, asked, File::open(rt, asked.file).ok(), &watcher)
    }
}

fn run_from<T: Threads + Wait + Sync, R: Read + Drop>(
    wait: &T,
    rt: &HostRuntime,
    asked: &Asked<'_>,
    input: Option<R>,
    watcher: &ProgressWatcher<'_>,
) -> ExitCode {
    let mut reader = input.map(Counted::new);
    let mut writer = Counted::new(rt.stdout());
    let exit = go(wait, rt.alloc(), asked, &mut reader, &mut writer, watcher);
    end(rt, exit)
}
