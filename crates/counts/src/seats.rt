//! The seats of those who count: rights to add to totals.
use crate::shares::Known;
use atomic_table::Seat;
use std::marker::Model;

/// The right to add to each total, without bytes.
#[derive(Drop)]
pub struct CountSeat {
    pub(crate) seat: Seat<(), Known>,
}

impl Model for CountSeat {
    ghost use Rattle.counts.specs.Seats.{Counter, HasParts};

    ghost Value = { Counter };

    ghost view = { λ s. record {
      of = s.seat.table_id;
      shares = s.seat.me.0.shares;
      seen = s.seat.me.0.seen;
    } };

    ghost invariant = { λ s. HasParts s.seat.me };
}

/// The right to add to each total but the retirements and the renewals, without bytes.
#[derive(Drop)]
pub struct WorkerSeat {
    pub(crate) seat: Seat<(), Known>,
}

impl Model for WorkerSeat {
    ghost use Rattle.counts.specs.Seats.{Counter, HasOtherParts};

    ghost Value = { Counter };

    ghost view = { λ s. record {
      of = s.seat.table_id;
      shares = s.seat.me.0.shares;
      seen = s.seat.me.0.seen;
    } };

    ghost invariant = { λ s. HasOtherParts s.seat.me };
}
