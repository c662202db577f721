//! Progress: a unit goes on until it has ended, and its acts run out where no tenant is let, as laws.
ghost use Rattle.std.specs.Prelude.{List, ℕ};
ghost use Rattle.instructions.specs.Programs.{Program};
ghost use Rattle.inorder.specs.Unit.{Sizes};
ghost use Rattle.inorder.specs.Legal.{Taken, reached};
ghost use Rattle.inorder.specs.Progress.{ActsRunOut, MovesWork, NeverStuck};
ghost use Rattle.inorder.specs.Climbing.{LetsRunOut};

/// A unit that legal steps reach has ended where the in-order machine ends, or a step is possible that
/// is no guess, no flush and no renewal; but where the oldest live tenant has guessed wrong, flushes
/// may be all that is possible. Without speculation there is always such a step before the end.
pub fn a_unit_is_never_stuck()
    ensures { (p : Program) (c : Sizes) (history : List Taken) → NeverStuck p c history }
{}

/// A measure falls with each act and rises by at most 9 with a let. So a history has at most nine acts
/// for each tenant that it lets, and one that lets a bounded number for each instruction that it
/// commits has a bounded number of acts, if the in-order machine stops.
pub fn acts_run_out()
    ensures moves { (p : Program) (c : Sizes) (history : List Taken) (by : ℕ) →
        MovesWork p c (reached p c history) by }
    ensures ends { (p : Program) (c : Sizes) (history : List Taken) → ActsRunOut p c history }
{}

/// Where nobody retires and nobody is flushed, and nobody is let while a miss is live, fewer than ten to
/// the power of the ring size are let.
pub fn lets_run_out()
    ensures { (p : Program) (c : Sizes) (more history : List Taken) → LetsRunOut p c more history }
{}
