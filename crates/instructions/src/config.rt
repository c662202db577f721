//! The configuration of a core and its run.
ghost use Rattle.std.specs.Prelude.{◌≡◌, ◌≤◌, ◌<◌, ◌^◌, ◌-◌, None, Some, IfOk, IfErr};
ghost use Rattle.instructions.specs.Settings.{Settings, IsValid, first_bad, is_ring};

use std::marker::Model;
use thiserror::Error;

/// The first argument of `Config::new` that is out of its range.
#[derive(Clone, Copy, Debug, Drop, PartialEq, Error)]
pub enum BadConfig {
    #[error("the ring size is 2, 4, 8, 16 or 32")]
    Ring,
    #[error("the queue size is from 2 to the ring size")]
    Queue,
    #[error("the unit seats are from 1 to 64")]
    Units,
    #[error("the snapshot places are from 1 to 64")]
    Places,
    #[error("the first tag is from 1 to 268435454")]
    Tag,
    #[error("the limit is from 0 to 4294967295")]
    Limit,
    #[error("the turns are from 1 to 4294967295")]
    Turns,
}

/// The sizes and limits of a core and its run.
#[derive(Clone, Copy)]
pub struct Config {
    ring: u32,
    queue: u32,
    units: u32,
    places: u32,
    first_tag: u32,
    limit: u32,
    turns: u32,
}

impl Model for Config {
    ghost Value = { Settings };

    ghost view = { λ c. record {
      ring = c.ring;
      queue = c.queue;
      units = c.units;
      places = c.places;
      first_tag = c.first_tag;
      limit = c.limit;
      turns = c.turns;
    } };

    ghost inverse = { λ s. record {
      ring = s.ring;
      queue = s.queue;
      units = s.units;
      places = s.places;
      first_tag = s.first_tag;
      limit = s.limit;
      turns = s.turns;
    } };

    ghost invariant = { λ c. IsValid c.ring c.queue c.units c.places c.first_tag c.limit c.turns };
}

fn is_ring_size(ring: u64) -> bool
    ensures { result ≡ is_ring ring }
{
    matches!(ring, 2 | 4 | 8 | 16 | 32)
}

impl Config {
    /// A configuration of `ring` reservation stations (2, 4, 8, 16 or 32), at most `queue` loads
    /// and stores in flight (2 to `ring`), `units` unit seats and `places` snapshot places (1 to 64
    /// each), tags from `first_tag` on (1 to 2^28 - 2), at most `limit` instructions (from 0 to
    /// 2^32 - 1) and `turns` turns of each thread (1 to 2^32 - 1). The first argument out of its
    /// range, in this order, is named.
    pub fn new(
        ring: u64,
        queue: u64,
        units: u64,
        places: u64,
        first_tag: u64,
        limit: u64,
        turns: u64,
    ) -> Result<Config, BadConfig>
        ensures ok { IfOk result (λ c. c ≡ record {
          ring = ring;
          queue = queue;
          units = units;
          places = places;
          first_tag = first_tag;
          limit = limit;
          turns = turns;
        }) }
        ensures valid { IfOk result (λ _.
            first_bad ring queue units places first_tag limit turns ≡ None) }
        ensures err { IfErr result (λ bad.
            first_bad ring queue units places first_tag limit turns ≡ Some bad) }
    {
        if !is_ring_size(ring) {
            return Err(BadConfig::Ring);
        }
        if queue < 2 || ring < queue {
            return Err(BadConfig::Queue);
        }
        if units < 1 || 64 < units {
            return Err(BadConfig::Units);
        }
        if places < 1 || 64 < places {
            return Err(BadConfig::Places);
        }
        if first_tag < 1 || 0x0fff_fffe < first_tag {
            return Err(BadConfig::Tag);
        }
        if 0xffff_ffff < limit {
            return Err(BadConfig::Limit);
        }
        if turns < 1 || 0xffff_ffff < turns {
            return Err(BadConfig::Turns);
        }
        Ok(Config {
            ring: ring as u32,
            queue: queue as u32,
            units: units as u32,
            places: places as u32,
            first_tag: first_tag as u32,
            limit: limit as u32,
            turns: turns as u32,
        })
    }

    /// The number of reservation stations in the ring.
    pub fn ring(&self) -> u32
        ensures value { result ≡ self.now.ring }
        ensures least { 2 ≤ result }
        ensures most { result ≤ 32 }
    {
        self.ring
    }

    /// The most loads and stores in flight.
    pub fn queue(&self) -> u32
        ensures value { result ≡ self.now.queue }
        ensures least { 2 ≤ result }
        ensures most { result ≤ self.now.ring }
    {
        self.queue
    }

    /// The number of unit seats.
    pub fn units(&self) -> u32
        ensures value { result ≡ self.now.units }
        ensures least { 1 ≤ result }
        ensures most { result ≤ 64 }
    {
        self.units
    }

    /// The number of snapshot places.
    pub fn places(&self) -> u32
        ensures value { result ≡ self.now.places }
        ensures least { 1 ≤ result }
        ensures most { result ≤ 64 }
    {
        self.places
    }

    /// The first tag of each station.
    pub fn first_tag(&self) -> u32
        ensures value { result ≡ self.now.first_tag }
        ensures least { 1 ≤ result }
        ensures most { result < 2 ^ 28 - 1 }
    {
        self.first_tag
    }

    /// The most instructions of a run.
    pub fn limit(&self) -> u32
        ensures { result ≡ self.now.limit }
    {
        self.limit
    }

    /// The number of turns of each thread.
    pub fn turns(&self) -> u32
        ensures value { result ≡ self.now.turns }
        ensures least { 1 ≤ result }
    {
        self.turns
    }
}
