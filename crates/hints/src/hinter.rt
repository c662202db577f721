//! A thread's end of a queue of hints.
use crate::deals::Deal;
use crossbeam_queue::Pass;
use std::marker::Model;

/// A thread's end of a queue, and how often it has offered a hint and asked for one. Only `Hints::push` and
/// `Hints::pop` count, so that a thread has called them as often as it has offered and asked.
#[derive(Drop)]
pub struct Hinter {
    pub(crate) pass: Pass<u32, Deal>,
    pub(crate) offered: u64,
    pub(crate) asked: u64,
}

impl Model for Hinter {
    ghost use Rattle.std.specs.Prelude.{◌≡◌, []};
    ghost use Rattle.hints.specs.Hinted.{TheHinter};

    ghost Value = { TheHinter };

    ghost view = { λ h. record {
      of = h.pass.table_id;
      deal = h.pass.me.0.client;
      offered = h.offered;
      asked = h.asked;
    } };

    ghost invariant = { λ h. h.pass.me.1 ≡ [] };
}
