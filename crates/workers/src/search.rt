//! Where a unit looks for work.
ghost use Rattle.std.specs.Prelude.{◌≡◌, ◌<◌, ◌≤◌};
ghost use Rattle.workers.specs.Hinting.{AsksOnce, FindsStation, Searches, candidate_station};

use hints::{Hinter, Hints, Ring};
use inorder::wrapped;
use std::sync::Wait;

/// A station at which a unit looks for work.
#[derive(Clone, Copy)]
pub(crate) enum Candidate {
    /// A station that came as a hint.
    Hinted(usize),
    /// The next one in ring order, where there was no hint.
    Next(usize),
}

impl Candidate {
    /// The station of the candidate.
    pub(crate) fn station(self) -> usize
        ensures { result ≡ candidate_station self }
    {
        match self {
            Candidate::Hinted(station) => station,
            Candidate::Next(station) => station,
        }
    }
}

/// A unit's end of the queue of hints, and the station that is next in ring order.
#[derive(Drop)]
pub(crate) struct Search {
    pub hinter: Hinter,
    pub next: usize,
}

impl Search {
    /// Begins at the first station.
    pub(crate) fn new<K: Ring>(hints: &Hints<K>) -> Search
        requires { 0 < hints.now.ring }
        ensures { Searches hints.now result }
    {
        Search {
            hinter: hints.hinter(),
            next: 0,
        }
    }

    /// Takes the oldest hint, or the next station in ring order where there is none.
    pub(crate) fn next<K: Ring, R: Wait>(
        &mut self,
        wait: &R,
        hints: &Hints<K>,
        ring: usize,
    ) -> Candidate
        requires of { Searches hints.now self.old }
        requires ring { ring ≡ hints.now.ring }
        requires most { ring ≤ 32 }
        ensures of { Searches hints.now self.new }
        ensures station { candidate_station result < ring }
        ensures looks { FindsStation ring self.old self.new result }
        ensures asks { AsksOnce self.old self.new }
        ensures offers { self.new.hinter.offered ≡ self.old.hinter.offered }
    {
        if let Some(station) = hints.pop(wait, &mut self.hinter) {
            return Candidate::Hinted(station as usize);
        }
        let station = self.next;
        self.next = wrapped(station + 1, ring);
        Candidate::Next(station)
    }
}
