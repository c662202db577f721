//! The setup of a table of these words, the views of its seats, and its rule.
use atomic_table::{Badge, Play, TableRule};
use inorder::history::{Entry, Supply};
use instructions::Program;
use std::collections::LinkedList;
use std::marker::Brand;

/// The program and the sizes of a unit, and what its table opens with.
#[derive(Drop)]
pub struct Setup {
    pub program: Program,
    pub ring: usize,
    pub queue: usize,
    pub first_tag: u32,
    /// The seat of another table whose history this one goes on from. A blank one is none.
    pub opening: Badge<View>,
}

/// The role of a seat.
pub enum Role {
    /// The first seat, which becomes the front's once the back's is cut from it.
    Start,
    Front,
    Back,
    /// A unit's seat.
    Worker,
    /// A seat that makes no calls any more.
    Spent,
}

/// Which words of the tenant in progress are stored.
pub enum Stage {
    Info,
    FirstOperand,
    BothOperands,
}

/// The tenant that the front is about to let: the index of its instruction, its predicted next pc,
/// and its sources.
pub enum Draft {
    Nothing,
    Of(Stage, u64, u64, Supply, Supply),
}

/// The numbers that a seat may give to the callers of seats cut from it: `first`, and then each that
/// is `every` further. There are none where `every` is 0.
pub struct SpareNumbers {
    pub first: u64,
    pub every: u64,
}

/// The view of a seat at the table: what it knows. No value of this type is made.
pub struct View {
    pub role: Role,
    /// The number of its caller.
    pub by: u64,
    pub spare: SpareNumbers,
    pub seen: LinkedList<Entry>,
    /// What another seat had seen that this one met. A look makes it part of `seen`.
    pub told: LinkedList<Entry>,
    pub draft: Draft,
}

/// The rule of the table: its words are those of the unit of one legal history.
pub struct OneHistory;

impl TableRule<u8, View, Setup> for OneHistory {
    ghost use Rattle.std.specs.Prelude.{[]};
    ghost use Rattle.ruu_words.specs.Views.{first_view};
    ghost use Rattle.ruu_words.specs.Rule.{Kept};

    ghost holds = { Kept };

    ghost first = { first_view };
}

// The contract of a step is picked where the step is made.
impl Play<u8, View> for Brand {
    ghost use Rattle.std.specs.Prelude.{⊤};

    ghost then = { λ _ _ _ _. ⊤ };
}
