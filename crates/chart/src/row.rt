//! The row of a live tenant.
ghost use Rattle.std.specs.Prelude.{◌≡◌};
ghost use Rattle.chart.specs.Blocked.{held_by};
ghost use Rattle.chart.specs.Rows.{seen};

use one_thread::{Stage, Station};

/// The store that blocks a load.
#[derive(Clone, Copy)]
pub struct Held {
    /// The position of the store.
    pub store: u64,
    /// The last turn after which the load was blocked.
    pub turn: u64,
}

/// A live tenant: its station after a turn, and what became of it so far. Turns are counted from 1.
#[derive(Clone, Copy)]
pub struct Row {
    /// The number of tenants that were let before it.
    pub position: u64,
    /// The turn of its let.
    pub let_at: u64,
    /// The turn at which it was claimed and finished.
    pub ran: Option<u64>,
    /// The store that has blocked a load last.
    pub held: Option<Held>,
    /// The turn at which a load got its value, or a miss was mended.
    pub resolved_at: Option<u64>,
    pub station: Station,
}

impl Row {
    /// The row of a tenant that a turn left in this station, if it is live.
    pub(crate) fn seen(&self, turn: u64, station: Option<Station>) -> Row
        ensures { result ≡ seen turn self.now station }
    {
        let Some(station) = station else {
            return *self;
        };
        let ran = match (self.station.stage, station.stage) {
            (Stage::Open, Stage::Open) => self.ran,
            (Stage::Open, _) => Some(turn),
            _ => self.ran,
        };
        let resolved_at = match (self.station.stage, station.stage) {
            (Stage::Addr(_) | Stage::Miss(_), Stage::Done) => Some(turn),
            _ => self.resolved_at,
        };
        Row {
            ran,
            resolved_at,
            station,
            ..*self
        }
    }

    /// The row of a tenant that waits for this store after a turn, if it waits for one.
    pub(crate) fn held_by(&self, turn: u64, store: Option<u64>) -> Row
        ensures { result ≡ held_by turn self.now store }
    {
        match store {
            None => *self,
            Some(store) => Row {
                held: Some(Held { store, turn }),
                ..*self
            },
        }
    }
}
