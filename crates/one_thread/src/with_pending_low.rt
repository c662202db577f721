//! The state that a new tenant finds where nobody is live.
ghost use Rattle.std.specs.Prelude.{◌≡◌, slice_index};

use inorder::Committed;
use instructions::Reg;
use std::marker::Model;

/// What is committed, and what waits for LO.
#[derive(Drop)]
pub struct WithPendingLow<'c> {
    pub committed: &'c Committed,
    pub low: &'c Option<u32>,
}

impl<'c> Model for WithPendingLow<'c> {
    ghost use Rattle.inorder.specs.Machine.{State};
    ghost use Rattle.inorder.specs.Committed.{ahead_by};

    ghost Value = { State };

    ghost view = { λ a. ahead_by a.low.now a.committed.now };
}

impl<'c> WithPendingLow<'c> {
    /// What a register holds.
    #[inline(always)]
    pub(crate) fn register(&self, r: Reg) -> u32
        ensures { result ≡ slice_index self.now.registers r }
    {
        self.committed.register_ahead(*self.low, r)
    }
}
