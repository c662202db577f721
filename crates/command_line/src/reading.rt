//! Reading the words of each program: what they ask for, or why they are refused.
ghost use Rattle.std.specs.Prelude.{◌≡◌, IfOk, IfErr, List, false, map};
ghost use Rattle.clap.specs.Words.{Row};
ghost use Rattle.instructions.specs.Settings.{is_ring};
ghost use Rattle.command_line.specs.Reading.{AreRefused, IsRead};
ghost use Rattle.command_line.specs.Requests.{AreInRange, HasOddRing, IsAskedBy, IsChartedBy, IsCheckedBy};
ghost use Rattle.command_line.specs.Requests.{IsDrivenBy, IsLoggedBy, NeverOdd, run_settings};
ghost use Rattle.command_line.specs.Values.{greatest, rows_in};
ghost use Rattle.command_line.specs.declared.word.Word.TheVariants.{Run, Chart, Commits, Check, Drive};

use crate::entered::entered;
use crate::entries::Entries;
use crate::word::Word;
use crate::{Asked, ByHand, Charted, Checked, Logged, NoRun, RunRequest, is_standard_input};
use instructions::Config;
use std::alloc::Global;
use std::convert::AsStr;

// The greatest limit, number of turns and the like.
const MOST: u64 = 0xffff_ffff;

/// What the words of a program can ask for.
trait Request<'a>: Sized {
    // the rows ask for it, whatever the ring size
    ghost Asks: { List Row → Self → Type 0 };

    // no ring has the ring size
    ghost IsOdd: { Self → Type 0 };

    // Mistakes come in the order in which the options are read, and a ring size that no ring has comes last.
    fn read(entries: &Entries<'a>) -> Result<Self, NoRun>
        ensures ok { IfOk result (Asks (rows_in entries.now)) }
        ensures err { IfErr result (AreRefused (rows_in entries.now) Asks IsOdd) };
}

fn read<'a, Q: Request<'a>, S: AsStr>(alloc: Global, word: Word, words: &'a [S]) -> Result<Q, NoRun>
    ensures { IsRead word (map S.text words.entry.now) Q.Asks Q.IsOdd result }
{
    let entries = entered(alloc, word, words)?;
    Q::read(&entries)
}

/// The run that words ask for, the first of which is the program's name. Where they are refused, `NoRun` has what to print,
/// and `status` gives the exit status; so it is for each program.
pub fn asked<'a, S: AsStr>(alloc: Global, words: &'a [S]) -> Result<Asked<'a>, NoRun>
    ensures { IsRead Run (map S.text words.entry.now) IsAskedBy
        (λ asked. HasOddRing asked.config) result }
{
    read(alloc, Word::Run, words)
}

/// The run whose chart words ask for.
pub fn parse_chart<'a, S: AsStr>(alloc: Global, words: &'a [S]) -> Result<Charted<'a>, NoRun>
    ensures { IsRead Chart (map S.text words.entry.now) IsChartedBy
        (λ charted. HasOddRing charted.run.config) result }
{
    read(alloc, Word::Chart, words)
}

/// The log of commits that words ask for.
pub fn parse_commits<'a, S: AsStr>(alloc: Global, words: &'a [S]) -> Result<Logged<'a>, NoRun>
    ensures { IsRead Commits (map S.text words.entry.now) IsLoggedBy NeverOdd result }
{
    read(alloc, Word::Commits, words)
}

/// The check that words ask for.
pub fn parse_check<'a, S: AsStr>(alloc: Global, words: &'a [S]) -> Result<Checked<'a>, NoRun>
    ensures { IsRead Check (map S.text words.entry.now) IsCheckedBy NeverOdd result }
{
    read(alloc, Word::Check, words)
}

/// The unit that words ask to drive.
pub fn parse_drive<'a, S: AsStr>(alloc: Global, words: &'a [S]) -> Result<ByHand<'a>, NoRun>
    ensures { IsRead Drive (map S.text words.entry.now) IsDrivenBy NeverOdd result }
{
    read(alloc, Word::Drive, words)
}

// The configuration of a run, if there is a ring of this size. The queue size is cut to it.
fn configured(ring: u64, queue: u64, units: u64, limit: u64, turns: u64) -> Result<Config, NoRun>
    requires { AreInRange queue units limit turns }
    ensures ok { IfOk result (λ config. config ≡ run_settings ring queue units limit turns) }
    ensures err { IfErr result (λ e. (e ≡ NoRun.Ring) × (is_ring ring ≡ false)) }
{
    match Config::new(ring, queue.min(ring), units, 1, 1, limit, turns) {
        Ok(config) => Ok(config),
        Err(_) => Err(NoRun::Ring),
    }
}

impl<'a> Request<'a> for Asked<'a> {
    ghost Asks = { IsAskedBy };

    ghost IsOdd = { λ asked. HasOddRing asked.config };

    fn read(entries: &Entries<'a>) -> Result<Asked<'a>, NoRun> {
        let file = entries.file()?;
        let queue = entries.number("lsq-size", 2, 32, 8)?;
        let units = entries.number("units", 1, 64, 2)?;
        let predictor = entries.predictor()?;
        let turns = entries.number("turns", 1, MOST, MOST)?;
        let limit = entries.number("limit", 0, MOST, 1_000_000)?;
        let alone = entries.flag("alone");
        let progress = entries.flag("progress");
        let seeds = entries.seeds(alone)?;
        let ring = entries.number("ruu-size", 0, u64::MAX, 16)?;
        let config = configured(ring, queue, units, limit, turns)?;
        Ok(Asked {
            file,
            config,
            predictor,
            alone,
            progress,
            seed: seeds.turns,
            shake: seeds.shake,
        })
    }
}

impl<'a> Request<'a> for Charted<'a> {
    ghost Asks = { IsChartedBy };

    ghost IsOdd = { λ charted. HasOddRing charted.run.config };

    fn read(entries: &Entries<'a>) -> Result<Charted<'a>, NoRun> {
        let file = entries.file()?;
        let queue = entries.number("lsq-size", 2, 32, 8)?;
        let predictor = entries.predictor()?;
        let limit = entries.number("limit", 0, MOST, 1_000_000)?;
        let seed = entries.seed("seed")?;
        let log = entries.log(file)?;
        let rows = entries.number("rows", 0, MOST, 1_000)?;
        let by_leave = entries.flag("by-leave");
        let ring = entries.number("ruu-size", 0, u64::MAX, 16)?;
        let config = configured(ring, queue, 2, limit, MOST)?;
        Ok(Charted {
            run: RunRequest {
                file,
                config,
                predictor,
                seed,
            },
            log,
            rows,
            by_leave,
        })
    }
}

impl<'a> Request<'a> for Logged<'a> {
    ghost Asks = { IsLoggedBy };

    ghost IsOdd = { NeverOdd };

    fn read(entries: &Entries<'a>) -> Result<Logged<'a>, NoRun> {
        Ok(Logged {
            file: entries.file()?,
            limit: entries.number("limit", 0, MOST, 1_000_000)?,
            from: entries.number("from", 1, MOST, 1)?,
            hash: entries.number("hash", 0, MOST, 0)?,
            text: entries.flag("text"),
        })
    }
}

impl<'a> Request<'a> for Checked<'a> {
    ghost Asks = { IsCheckedBy };

    ghost IsOdd = { NeverOdd };

    fn read(entries: &Entries<'a>) -> Result<Checked<'a>, NoRun> {
        Ok(Checked {
            file: entries.file()?,
            all: entries.flag("all"),
        })
    }
}

impl<'a> Request<'a> for ByHand<'a> {
    ghost Asks = { IsDrivenBy };

    ghost IsOdd = { NeverOdd };

    fn read(entries: &Entries<'a>) -> Result<ByHand<'a>, NoRun> {
        let file = entries.file()?;
        if is_standard_input(file) {
            return Err(entries.usage(
                "the commands come from standard input, and FILE cannot be -",
            ));
        }
        let queue = entries.number("lsq-size", 2, 32, 8)?;
        let predictor = entries.predictor()?;
        let first_tag = entries.number("first-tag", 1, 268_435_454, 1)?;
        let steps = entries.steps()?;
        let ring = entries.number("ruu-size", 2, 32, 16)?;
        let queue = queue.min(ring);
        let Ok(config) = Config::new(ring, queue, 64, 1, first_tag, 1_000_000, MOST) else {
            return Err(entries.usage("--ruu-size takes 2, 4, 8, 16 or 32"));
        };
        Ok(ByHand {
            file,
            config,
            predictor,
            quiet_prompt: entries.flag("quiet-prompt"),
            echo: entries.flag("echo"),
            seed: steps.seed,
            steps: steps.count,
        })
    }
}
