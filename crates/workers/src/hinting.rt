//! Hints stations at which units may find work.
ghost use Rattle.std.specs.Int.{bit_at};
ghost use Rattle.std.specs.Prelude.{◌≡◌, ◌<◌, ◌≤◌, IsFalse, IsTrue};
ghost use Rattle.hints.specs.Hinted.{IsEndOf};
ghost use Rattle.workers.specs.Hinting.{HasHinted};
ghost use Rattle.station.specs.Waking.{IsSet};

use hints::{Hinter, Hints, Ring};
use std::sync::Wait;

// Whether a station is one of these: bit s stands for station s.
fn is_one_of(stations: u32, station: u32) -> bool
    requires { station < 32 }
    ensures set { IsTrue result → IsSet stations station }
    ensures clear { IsFalse result → bit_at stations station ≡ 0 }
{
    (stations >> station) & 1 == 1
}

/// Hints each of these stations, the lowest first: bit s stands for station s. A hint that finds the queue
/// full is dropped.
pub fn hint_each<K: Ring, R: Wait>(
    wait: &R,
    hints: &Hints<K>,
    hinter: &mut Hinter,
    ring: usize,
    stations: u32,
)
    requires of { IsEndOf hints.now hinter.old }
    requires ring { ring ≡ hints.now.ring }
    requires most { ring ≤ 32 }
    ensures of { IsEndOf hints.now hinter.new }
    ensures hinted { HasHinted stations ring hinter.old hinter.new }
{
    for station in 0..ring as u32 {
        if is_one_of(stations, station) {
            let _is_put = hints.push(wait, hinter, station);
        }
    }
}
