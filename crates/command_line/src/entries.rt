//! The entries of a program's word, each read as what it stands for.
ghost use Rattle.std.specs.Prelude.{◌≡◌, IfOk, IfErr, Some, None, codes};
ghost use Rattle.clap.specs.Words.{first_of};
ghost use Rattle.command_line.specs.Reading.{IsUsage};
ghost use Rattle.command_line.specs.Requests.{AreSeeds, AreSteps, IsLogFile};
ghost use Rattle.command_line.specs.Values.{IsNumberFrom, IsNoNumberFrom, IsPredictor, IsNoPredictor};
ghost use Rattle.command_line.specs.Values.{IsNoSeed, IsSeed, is_true, rows_in, text_behind};

use crate::refusals::usage;
use crate::values::{number_in, predictor_in};
use crate::{BranchPredictor, NoRun};
use clap::ArgMatches;
use std::alloc::Global;

/// What `clap` has found of a program's word.
#[derive(Drop)]
pub(crate) struct Entries<'a> {
    pub alloc: Global,
    /// The program, with which a mistake names its help.
    pub program: &'static str,
    pub matches: ArgMatches<'a>,
}

/// The seed by which turns are chosen, and that by which units are held back.
#[derive(Clone, Copy)]
pub(crate) struct Seeds {
    pub turns: Option<u64>,
    pub shake: Option<u64>,
}

/// The seed by which commands are chosen, and how many.
#[derive(Clone, Copy)]
pub(crate) struct Steps {
    pub seed: Option<u64>,
    pub count: u64,
}

impl<'a> Entries<'a> {
    /// A mistake.
    pub(crate) fn usage(&self, what: &str) -> NoRun
        ensures { IsUsage result }
    {
        usage(self.alloc, self.program, what)
    }

    fn text(&self, name: &str) -> Option<&'a str>
        ensures { text_behind result ≡ first_of name.now (rows_in self.now) }
    {
        self.matches.get_str(name)
    }

    /// The file of the listing.
    pub(crate) fn file(&self) -> Result<&'a str, NoRun>
        ensures ok { IfOk result (λ file.
            first_of (codes "FILE") (rows_in self.now) ≡ Some file.now) }
        ensures usage { IfErr result IsUsage }
        ensures err { IfErr result (λ _. first_of (codes "FILE") (rows_in self.now) ≡ None) }
    {
        match self.text("FILE") {
            Some(file) => Ok(file),
            None => Err(self.usage("there is no FILE")),
        }
    }

    /// The flag was given.
    pub(crate) fn flag(&self, name: &str) -> bool
        ensures { result ≡ is_true (first_of name.now (rows_in self.now)) }
    {
        match self.text(name) {
            Some(text) => text == "true",
            None => false,
        }
    }

    /// The number of an option, or the default without one, if it is in its range.
    pub(crate) fn number(
        &self,
        name: &str,
        least: u64,
        most: u64,
        default: u64,
    ) -> Result<u64, NoRun>
        ensures ok { IfOk result (IsNumberFrom least most default
            (first_of name.now (rows_in self.now))) }
        ensures usage { IfErr result IsUsage }
        ensures err { IfErr result (λ _. IsNoNumberFrom least most default
            (first_of name.now (rows_in self.now))) }
    {
        if let Some(number) = number_in(self.text(name), least, most, default) {
            return Ok(number);
        }
        match format!(in self.alloc; "--{name} takes a number from {least} to {most}") {
            Ok(text) => Err(self.usage(text.as_str())),
            Err(_) => Err(NoRun::Memory),
        }
    }

    /// The seed of an option, if it was given.
    pub(crate) fn seed(&self, name: &str) -> Result<Option<u64>, NoRun>
        ensures ok { IfOk result (IsSeed (first_of name.now (rows_in self.now))) }
        ensures usage { IfErr result IsUsage }
        ensures err { IfErr result (λ _. IsNoSeed (first_of name.now (rows_in self.now))) }
    {
        if self.text(name).is_none() {
            return Ok(None);
        }
        let seed = self.number(name, 0, u64::MAX, 0)?;
        Ok(Some(seed))
    }

    /// The predictor of `--bpred`, or the bimodal one without it.
    pub(crate) fn predictor(&self) -> Result<BranchPredictor, NoRun>
        ensures ok { IfOk result (IsPredictor (first_of (codes "bpred") (rows_in self.now))) }
        ensures usage { IfErr result IsUsage }
        ensures err { IfErr result (λ _.
            IsNoPredictor (first_of (codes "bpred") (rows_in self.now))) }
    {
        match predictor_in(self.text("bpred")) {
            Some(predictor) => Ok(predictor),
            None => Err(self.usage("--bpred takes nottaken, taken or bimod")),
        }
    }

    /// The seeds of a run: turns are chosen on one thread, and units held back on several.
    pub(crate) fn seeds(&self, alone: bool) -> Result<Seeds, NoRun>
        requires alone { alone ≡ is_true (first_of (codes "alone") (rows_in self.now)) }
        ensures ok { IfOk result (λ seeds. AreSeeds (rows_in self.now) seeds.turns seeds.shake) }
        ensures usage { IfErr result IsUsage }
        ensures err { IfErr result (λ _. (turns shake : _) →
            ¬ (AreSeeds (rows_in self.now) turns shake)) }
    {
        let turns = self.seed("seed")?;
        let shake = self.seed("shake")?;
        if !alone && turns.is_some() {
            return Err(self.usage("--seed needs --alone"));
        }
        if alone && shake.is_some() {
            return Err(self.usage("--shake cannot stand with --alone"));
        }
        Ok(Seeds { turns, shake })
    }

    /// The commands that a seed chooses. A number of them without a seed is a mistake.
    pub(crate) fn steps(&self) -> Result<Steps, NoRun>
        ensures ok { IfOk result (λ steps. AreSteps (rows_in self.now) steps.seed steps.count) }
        ensures usage { IfErr result IsUsage }
        ensures err { IfErr result (λ _. (seed count : _) →
            ¬ (AreSteps (rows_in self.now) seed count)) }
    {
        let seed = self.seed("shuffle")?;
        let count = self.number("steps", 1, 1_000_000, 400)?;
        if seed.is_none() && self.text("steps").is_some() {
            return Err(self.usage("--steps needs --shuffle"));
        }
        Ok(Steps { seed, count })
    }

    /// The file of the log, if one is asked for; neither the listing's nor `-`.
    pub(crate) fn log(&self, file: &str) -> Result<Option<&'a str>, NoRun>
        requires file { first_of (codes "FILE") (rows_in self.now) ≡ Some file.now }
        ensures ok { IfOk result (λ log.
            text_behind log ≡ first_of (codes "trace") (rows_in self.now)) }
        ensures file { IfOk result (λ _. IsLogFile (first_of (codes "FILE") (rows_in self.now))
            (first_of (codes "trace") (rows_in self.now))) }
        ensures usage { IfErr result IsUsage }
        ensures err { IfErr result (λ _. ¬ (IsLogFile (first_of (codes "FILE") (rows_in self.now))
            (first_of (codes "trace") (rows_in self.now)))) }
    {
        let Some(log) = self.text("trace") else {
            return Ok(None);
        };
        if log == file {
            return Err(self.usage("--trace names the file of the listing"));
        }
        if log == "-" {
            return Err(self.usage("--trace takes a file"));
        }
        Ok(Some(log))
    }
}
