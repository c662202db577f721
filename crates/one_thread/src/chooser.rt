//! Choosers, which name one of the steps that are possible.
ghost use Rattle.std.specs.Prelude.{◌≡◌, ◌<◌, ℕ, List, length};
ghost use Rattle.one_thread.specs.Possible.{Possible};
ghost use Rattle.one_thread.specs.Seeds.{ChoosesBy, ChoosesNext, IsNextWord, order_by, seeded};
ghost use Rattle.one_thread.specs.Steps.{names};

use crate::possible::Step;
use rand_core::utils::NextWord;
use rand_pcg::Pcg32;
use std::marker::Model;

/// Chooses the step that a turn makes. A chooser says what a call makes of its value; nothing is assumed of its
/// answers.
pub trait Chooser {
    /// What an answer to `choose` is, by the steps that are possible, and what the call makes of the chooser.
    ghost Chooses: { Self → List Possible → ℕ → Self → Type 0 };

    /// Names one of the steps that are possible, which stand in the order of `Bench::steps`: any number, of which the
    /// remainder by how many there are counts, from 0 for the first.
    fn choose(&mut self, steps: &[Step]) -> u32
        requires { 0 < length steps.now }
        ensures { Chooses self.old (names steps.now) result self.new };
}

/// Chooses by the words of a generator of random numbers, which a seed begins. A seed gives the same choices on
/// every machine. The generator is PCG32 of O'Neill, "PCG: a family of simple fast space-efficient statistically
/// good algorithms for random number generation".
#[derive(Drop)]
pub struct Seeded {
    words: Pcg32,
}

impl Model for Seeded {
    ghost use Rattle.rand_pcg.specs.Lcg.{Lcg};

    ghost Value = { Lcg };

    ghost view = { λ s. s.words };
}

impl Seeded {
    /// The chooser of a seed.
    pub fn new(seed: u64) -> Seeded
        ensures { result ≡ seeded seed }
    {
        Seeded {
            words: Pcg32::new(seed, 0),
        }
    }

    /// The next word of the generator.
    pub fn next_word(&mut self) -> u32
        ensures { IsNextWord self.old result self.new }
    {
        self.words.next_word()
    }
}

impl Chooser for Seeded {
    ghost Chooses = { ChoosesNext };

    fn choose(&mut self, _steps: &[Step]) -> u32 {
        self.words.next_word()
    }
}

/// The order in which a bench makes its turns.
#[derive(Drop)]
pub enum Order {
    /// Each turn makes the first step that is possible.
    First,
    /// Each turn makes the step that a seed names.
    Seeded(Seeded),
}

impl Order {
    /// The order of a seed; without one each turn is the first that is possible.
    pub fn by_seed(seed: Option<u64>) -> Self
        ensures { result ≡ order_by seed }
    {
        match seed {
            None => Order::First,
            Some(seed) => Order::Seeded(Seeded::new(seed)),
        }
    }
}

impl Chooser for Order {
    ghost Chooses = { ChoosesBy };

    fn choose(&mut self, steps: &[Step]) -> u32 {
        match self {
            Order::First => 0,
            Order::Seeded(chooser) => chooser.choose(steps),
        }
    }
}
