//! Times of the parser, the in-order machine and the one-thread unit on the listing of standard input; or, given a
//! number of units and a limit of instructions, and then also the stations, the first tag, and how many nanoseconds
//! longer each unit takes for what it has claimed, of the one-thread unit and the unit shared by threads, whose reports
//! have to be the same. Standard output stays empty; the count and the times in microseconds go to standard error.
use counted_io::{Counted, read_up_to};
use inorder::Machine;
use instructions::{Bimod, Config, End, Program};
use isa::{parse, report_text};
use pool::{Gate, Open, Run, Tally, run};
use snapshots::Snap;
use std::alloc::Global;
use std::io::Eprint;
use std::process::ExitCode;
use std::sync::Wait;
use std::thread::Threads;
use std::time::{Clock, Instant};

const MOST: usize = 4_194_305;

const LIMIT: u64 = 4_294_967_295;

/// Why nothing was timed.
#[derive(Clone, Copy)]
enum Failure {
    Text,
    Words,
    /// Want of memory, or of a thread.
    Resource,
    /// The threads' report is not that of the one-thread unit.
    Differs,
}

/// What the threads are to run.
#[derive(Clone, Copy)]
struct Shape {
    units: u64,
    limit: u64,
    ring: u64,
    first_tag: u64,
    // How many nanoseconds longer each unit takes for what it has claimed.
    longer: u64,
}

// Has each unit take n nanoseconds longer.
#[derive(Drop)]
struct Slow<'a, R: Clock> {
    clock: &'a R,
    longer: u64,
}

impl<'a, R: Clock> Gate for Slow<'a, R> {
    fn held(&self, _unit: u32, _station: u32) -> bool {
        take(self.clock, self.longer);
        false
    }

    fn seen(&self, _place: u32, _snap: &Snap) {}

    fn counted(&self, _tally: &Tally) {}
}

// Returns after n nanoseconds: each look at the clock takes more than one.
fn take<R: Clock>(clock: &R, nanos: u64) {
    let Ok(started) = Instant::now(clock) else {
        return;
    };
    for _ in 0..nanos {
        match Instant::now(clock) {
            Ok(now) if now.duration_since(started).as_nanos() < nanos as u128 => {}
            _ => return,
        }
    }
}

/// Times what the words after `time` ask for, and gives the exit status.
pub fn time<R: Clock + Eprint + Threads + Wait + Sync>(
    rt: &HostRuntime,
    wait: &R,
    words: &[String],
) -> ExitCode {
    ExitCode::from(match timed(rt, wait, words) {
        Ok(()) => 0,
        Err(Failure::Text) => 2,
        Err(Failure::Words) => 3,
        Err(Failure::Resource) => 5,
        Err(Failure::Differs) => 1,
    })
}

fn timed<R: Clock + Eprint + Threads + Wait + Sync>(
    rt: &HostRuntime,
    wait: &R,
    words: &[String],
) -> Result<(), Failure> {
    let asked = asked(words)?;
    let bytes = read(rt)?;
    match asked {
        None => time_alone(wait, rt.alloc(), bytes.as_slice()),
        Some(shape) => time_pool(wait, rt.alloc(), bytes.as_slice(), &shape),
    }
}

// What the threads are to run, if there are words for it.
fn asked(words: &[String]) -> Result<Option<Shape>, Failure> {
    if words.is_empty() {
        return Ok(None);
    }
    Ok(Some(Shape {
        units: number(words.first(), None)?,
        limit: number(words.get(1), None)?,
        ring: number(words.get(2), Some(16))?,
        first_tag: number(words.get(3), Some(1))?,
        longer: number(words.get(4), Some(0))?,
    }))
}

// The number that a word is, or the one that is meant without it.
fn number(word: Option<&String>, usual: Option<u64>) -> Result<u64, Failure> {
    match word {
        Some(word) => word.as_str().parse().map_err(|_| Failure::Words),
        None => usual.ok_or(Failure::Words),
    }
}

fn now<R: Clock>(rt: &R) -> Result<Instant, Failure> {
    match Instant::now(rt) {
        Ok(now) => Ok(now),
        Err(_) => Err(Failure::Resource),
    }
}

fn read(rt: &HostRuntime) -> Result<Vec<u8>, Failure> {
    let mut input = Counted::new(rt.stdin());
    match read_up_to(rt.alloc(), &mut input, MOST) {
        Ok(bytes) => Ok(bytes),
        Err(_) => Err(Failure::Resource),
    }
}

fn parsed(alloc: Global, bytes: &[u8]) -> Result<Program, Failure> {
    match parse(alloc, bytes) {
        Ok(program) => Ok(program),
        Err(_) => Err(Failure::Text),
    }
}

fn configured(shape: &Shape) -> Result<Config, Failure> {
    let queue = (shape.ring / 2).max(2);
    match Config::new(
        shape.ring,
        queue,
        shape.units,
        1,
        shape.first_tag,
        shape.limit,
        LIMIT,
    ) {
        Ok(config) => Ok(config),
        Err(_) => Err(Failure::Words),
    }
}

// The end of the one-thread unit's run.
fn run_alone(alloc: Global, program: &Program, config: &Config) -> Result<End, Failure> {
    bench::run(alloc, program, config, Bimod::new()).map_err(|_| Failure::Resource)
}

fn report(alloc: Global, end: &End) -> Result<String, Failure> {
    report_text(alloc, end).map_err(|_| Failure::Resource)
}

fn time_alone<R: Clock + Eprint>(rt: &R, alloc: Global, bytes: &[u8]) -> Result<(), Failure> {
    let started = now(rt)?;
    let program = parsed(alloc, bytes)?;
    let parsed = now(rt)?;
    let Ok(mut machine) = Machine::new(alloc, &program) else {
        return Err(Failure::Resource);
    };
    let _ended = machine.run(LIMIT);
    let ran = now(rt)?;
    let shape = Shape {
        units: 1,
        limit: LIMIT,
        ring: 16,
        first_tag: 1,
        longer: 0,
    };
    let n = run_alone(alloc, &program, &configured(&shape)?)?.n;
    let ended = now(rt)?;
    let parse_time = parsed.duration_since(started).as_micros();
    let run_time = ran.duration_since(parsed).as_micros();
    let unit_time = ended.duration_since(ran).as_micros();
    let _ = eprintln!(rt; "{n} {parse_time} {run_time} {unit_time}");
    Ok(())
}

// The end of the run by threads, and its tally.
fn run_shared<R: Clock + Threads + Wait + Sync>(
    rt: &R,
    alloc: Global,
    program: &Program,
    config: &Config,
    longer: u64,
) -> Result<(End, Tally), Failure> {
    let run = match longer {
        0 => run(rt, alloc, program, config, Bimod::new(), &Open),
        _ => run(
            rt,
            alloc,
            program,
            config,
            Bimod::new(),
            &Slow { clock: rt, longer },
        ),
    };
    match run {
        Run::Ended(end, tally) | Run::LimitReached(end, tally) => Ok((end, tally)),
        Run::Refused(_) => Err(Failure::Resource),
    }
}

fn time_pool<R: Clock + Eprint + Threads + Wait + Sync>(
    rt: &R,
    alloc: Global,
    bytes: &[u8],
    shape: &Shape,
) -> Result<(), Failure> {
    let program = parsed(alloc, bytes)?;
    let config = configured(shape)?;
    let started = now(rt)?;
    let expected = run_alone(alloc, &program, &config)?;
    let ran = now(rt)?;
    let (end, tally) = run_shared(rt, alloc, &program, &config, shape.longer)?;
    let ended = now(rt)?;
    let unit_time = ran.duration_since(started).as_micros();
    let pool_time = ended.duration_since(ran).as_micros();
    let n = expected.n;
    let _ = eprintln!(rt; "{n} {} {unit_time} {pool_time} {tally:?}", end.n);
    if report(alloc, &end)?.as_str() != report(alloc, &expected)?.as_str() {
        return Err(Failure::Differs);
    }
    Ok(())
}
