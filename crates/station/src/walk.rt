//! Wakeup: a value is carried along the links of its station.
ghost use Rattle.std.specs.Prelude.{◌≡◌, ◌<◌, ◌≤◌, true};
ghost use Rattle.station.specs.Calls.{Carried, Carries, HasComeTo, IsLegalCall, MadeValue, Serves, WalksOf};
ghost use Rattle.station.specs.Carrying.{IsWriter};
ghost use Rattle.station.specs.Waking.{IsSet, IsWith};

use crate::call::Call;
use crate::results::{value_word, waiting_word};
use crate::seat::Part;
use inorder::history::Source;
use instructions::Outcome;
use ruu_words::LinkWord;

// Adds a station to the set of stations that were woken, if it was.
fn with_station(woken: u32, station: usize, wakes: bool) -> u32
    requires { station < 32 }
    ensures { IsWith woken station wakes result }
{
    if wakes {
        return woken | (1 << station);
    }
    woken
}

impl<'a, P: Part> Call<'a, P> {
    // Reads one link of the producer's station, and delivers the value to the consumer that the link names.
    // True if the consumer got its value by this delivery.
    fn serve(&mut self, from: (usize, u32), to: usize, k: Source, value: u32) -> bool
        requires tags { 1 ≤ self.old.core.sizes.first_tag }
        requires to { to < self.old.core.sizes.ring }
        requires made { MadeValue self.old from value }
        ensures { Carried self.old self.new (Serves from to k)
            (λ s. (result ≡ true) × (s ≡ to)) }
    {
        let _ = &self.seat;
        let word = self.read_link(from.0, to, k);
        let link = match LinkWord::unpack(word) {
            Some(link) => link,
            None => return false,
        };
        if link.producer != from.1 {
            return false;
        }
        let old = waiting_word(link.consumer);
        let new = value_word(link.consumer, value);
        let found = self.deliver(to, k, old, new);
        found == old
    }

    /// Delivers the value of a station's tenant to all consumers that asked for it in time. Each link is read
    /// once. One more look at the station has the mark of the walk, since the last delivery comes after its link.
    /// The answer has a bit for each station that was woken.
    pub(crate) fn walk(&mut self, from: (usize, u32), value: u32) -> u32
        requires writer { IsWriter P.role }
        requires made { MadeValue self.old from value }
        ensures { Carried self.old self.new (WalksOf from) (IsSet result) }
    {
        let core = self.core;
        let mut woken = 0;
        for to in 0..core.ring {
            let first = self.serve(from, to, Source::First, value);
            let second = self.serve(from, to, Source::Second, value);
            woken = with_station(woken, to, first | second);
        }
        self.end_walk(from.0, from.1, value);
        woken
    }

    /// Delivers the outcome of a station's tenant to all consumers that asked for it in time, if it is a value.
    pub(crate) fn carry(&mut self, from: (usize, u32), outcome: Outcome) -> u32
        requires writer { IsWriter P.role }
        requires legal { IsLegalCall self.old }
        requires made { HasComeTo self.old from outcome }
        ensures { Carried self.old self.new (Carries from outcome) (IsSet result) }
    {
        match outcome {
            Outcome::Value(value) => self.walk(from, value),
            Outcome::Pair(..) | Outcome::Next(_) | Outcome::Address(_) | Outcome::Stop(_) => 0,
        }
    }
}
