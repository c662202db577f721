//! Holds units back by a seed.
ghost use Rattle.std.specs.Prelude.{◌≡◌, IfOk};
ghost use Rattle.on_threads.specs.Holds.{questions_of, random_word};

use rand_core::utils::NextWord;
use rand_pcg::Pcg32;
use std::alloc::{AllocError, Global};
use std::marker::Model;
use std::sync::atomic::AtomicU64;
use std::sync::atomic::Ordering::SeqCst;

// How far a unit is in its stream. Its own thread alone asks for it, so that no two change it at a time.
#[derive(Drop)]
struct Holds {
    // how many holds were drawn
    drawn: AtomicU64,
    // questions left of the current hold; at 0 the next is drawn
    questions: AtomicU64,
}

/// Draws for each job of a unit how many questions that unit is held for, from a stream of its own: results then
/// come late, after those of younger tenants, and stale ones for stations that have another tenant by then.
#[derive(Drop)]
pub(crate) struct Shaker {
    seed: u64,
    units: Vec<Holds>,
}

impl Model for Shaker {
    ghost use Rattle.std.specs.Prelude.{ℕ};

    ghost Value = { ℕ };

    ghost view = { λ s. s.seed };
}

impl Shaker {
    /// A shaker of n units.
    pub(crate) fn new(alloc: Global, seed: u64, units: u32) -> Result<Shaker, AllocError>
        ensures { IfOk result (λ s. s ≡ seed) }
    {
        let mut holds = Vec::new(alloc);
        for _ in 0..units {
            holds.push(Holds {
                drawn: AtomicU64::new(0),
                questions: AtomicU64::new(0),
            })?;
        }
        Ok(Shaker { seed, units: holds })
    }

    /// Whether a unit is held at this question. Units are numbered from 1.
    pub(crate) fn holds(&self, unit: u32) -> bool {
        let Some(holds) = self.units.get((unit as usize).wrapping_sub(1)) else {
            return false;
        };
        let left = match holds.questions.load(SeqCst) {
            0 => {
                let drawn = holds.drawn.fetch_add(1, SeqCst);
                u64::from(questions(word(self.seed, unit, drawn))) + 1
            },
            left => left,
        };
        holds.questions.store(left - 1, SeqCst);
        left > 1
    }
}

// The nth word of a unit's stream.
fn word(seed: u64, unit: u32, n: u64) -> u32
    ensures { result ≡ random_word seed unit n }
{
    let mut words = Pcg32::new(seed, u64::from(unit));
    words.advance(n);
    words.next_word()
}

// How many questions a word stands for: few of them more often than many.
fn questions(word: u32) -> u32
    ensures { result ≡ questions_of word }
{
    word / 256 % (word % 64 + 1)
}
