//! Places of words in the table.
ghost use Rattle.std.specs.Prelude.{◌≡◌, ◌<◌, ◌≤◌};
ghost use Rattle.ruu_words.specs.Places.{IsPlace, index, words_for};

use inorder::history::Source;

/// The place of a word. Stations are named by number.
#[derive(Clone, Copy)]
pub enum Place {
    Station(usize),
    Info(usize),
    /// The operand of a source of a station's tenant.
    Operand(usize, Source),
    /// The link from a producer's station to a source of a consumer's station.
    Link(usize, usize, Source),
}

fn number(k: Source) -> usize
    ensures value { result ≡ Rattle.ruu_words.specs.Places.number k }
    ensures small { result ≤ 1 }
{
    match k {
        Source::First => 0,
        Source::Second => 1,
    }
}

impl Place {
    /// The index of the place in the table of a ring of `ring` stations.
    pub fn index(self, ring: usize) -> usize
        requires place { IsPlace ring self }
        requires ring { ring ≤ 32 }
        ensures value { result ≡ index ring self }
        ensures inside { result < words_for ring }
    {
        match self {
            Place::Station(s) => s,
            Place::Info(s) => ring + s,
            Place::Operand(s, k) => 2 * ring + 2 * s + number(k),
            Place::Link(p, c, k) => 4 * ring + 2 * (p * ring + c) + number(k),
        }
    }
}

/// The number of words in the table of a ring of `ring` stations.
pub fn word_count(ring: usize) -> usize
    requires ring { ring ≤ 32 }
    ensures { result ≡ words_for ring }
{
    4 * ring + 2 * (ring * ring)
}
