//! Runs a listing on one thread, from standard input to standard output.
#![tactic(auto)]

ghost use Rattle.std.specs.Prelude.{◌≡◌, IfSome, IsSome};
ghost use Rattle.std.specs.Process.{exit_status};
ghost use Rattle.alone.specs.Statuses.{status_of_run};

use bench::{Counted, Fault, Status, alone};
use instructions::{Config, NotTaken};
use std::process::ExitCode;

/// Ring 16, queue 8, one seat, one place, first tag 1, and 1,000,000 instructions at most.
fn config() -> Option<Config>
    ensures there { IsSome result }
    ensures sizes { IfSome result (λ c. (c.ring ≡ 16) × (c.queue ≡ 8)) }
    ensures limit { IfSome result (λ c. c.limit ≡ 1000000) }
{
    Config::new(16, 8, 1, 1, 1, 1_000_000, 0xffff_ffff).ok()
}

fn status(answer: Result<Status, Fault>) -> u8
    ensures { result ≡ status_of_run answer }
{
    match answer {
        Ok(status) => status.number(),
        Err(_) => 5,
    }
}

fn word(fault: Fault) -> &'static str {
    match fault {
        Fault::Memory => "memory",
        Fault::Read => "read",
        Fault::Write => "write",
    }
}

// A failure to print changes no status.
fn end(rt: &HostRuntime, answer: Result<Status, Fault>) -> ExitCode
    ensures { exit_status result ≡ status_of_run answer }
{
    if let Err(fault) = answer {
        let _ = eprintln!(rt; "ruu: {}", word(fault));
    }
    ExitCode::from(status(answer))
}

fn main(rt: HostRuntime) -> ExitCode {
    let Some(config) = config() else {
        return ExitCode::from(5);
    };
    let mut reader = Counted::new(rt.stdin());
    let mut writer = Counted::new(rt.stdout());
    let answer = alone(rt.alloc(), &mut reader, &mut writer, &config, NotTaken);
    end(&rt, answer)
}
