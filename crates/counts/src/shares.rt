//! A seat's shares of the totals and the additions that it has seen, the rule that ties both to the words,
//! and the steps on the words.
use atomic_table::{Join, Play, Split, TableRule};
use std::collections::LinkedList;

/// A seat's share of one total: how much the seat has added, and which part of the total it holds: `parts` of the
/// 2^`halvings` equal parts. Shares are in the proof alone.
pub struct Share {
    pub added: u64,
    pub parts: u64,
    pub halvings: u64,
}

/// A seat's share of each total, in the proof alone.
pub struct Shares {
    pub of: LinkedList<Share>,
}

/// An addition of `k` to the total at a position. Additions are in the proof alone.
pub struct Addition {
    pub at: u64,
    pub k: u64,
}

/// The knowledge of a seat, in the proof alone: its shares, and the additions of all seats that it has seen, the last
/// one first.
pub struct Known {
    pub shares: Shares,
    pub seen: LinkedList<Addition>,
}

/// The rule: each total is the sum of the shares, and of the additions of one history, of which each
/// seat has seen a beginning.
pub struct Sums;

impl TableRule<(), Known, ()> for Sums {
    ghost use Rattle.counts.specs.Rule.{AddsUp};
    ghost use Rattle.counts.specs.Known.{all_known};

    ghost holds = { λ _. AddsUp };

    ghost first = { λ _. all_known };
}

/// An addition to a total.
pub(crate) struct Add;

impl Play<(), Known> for Add {
    ghost use Rattle.counts.specs.Steps.{AddsTo};

    ghost then = { AddsTo };
}

/// A look at a total.
pub(crate) struct Look;

impl Play<(), Known> for Look {
    ghost use Rattle.counts.specs.Steps.{Looks};

    ghost then = { Looks };
}

/// A split in which both halves add to each total.
pub(crate) struct Halving;

impl Split<Known> for Halving {
    ghost use Rattle.counts.specs.Known.{with_shares};
    ghost use Rattle.counts.specs.Shares.{first_half, second_half};

    ghost left = { λ v. with_shares first_half v };

    ghost right = { λ v. with_shares second_half v };
}

/// A split in which the first half keeps all of the retirements and of the renewals.
pub(crate) struct Hiring;

impl Split<Known> for Hiring {
    ghost use Rattle.counts.specs.Known.{with_shares};
    ghost use Rattle.counts.specs.Shares.{with_kept, without_kept};

    ghost left = { λ v. with_shares with_kept v };

    ghost right = { λ v. with_shares without_kept v };
}

/// A joined seat has the shares of both.
pub(crate) struct Joining;

impl Join<Known> for Joining {
    ghost use Rattle.counts.specs.Known.{both_known, nothing_known};

    ghost both = { both_known };

    ghost spent = { nothing_known };
}
