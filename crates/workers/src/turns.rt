//! The turns of a thread.
ghost use Rattle.std.specs.Prelude.{◌≡◌, ◌+◌, true, false};
ghost use Rattle.workers.specs.Turns.{untaken};

use std::marker::Model;

/// The turns of one thread. Each is taken by itself and none is given back, so that few are left only
/// where the others were taken.
#[derive(Drop)]
pub struct Turns {
    all: u32,
    taken: u32,
}

impl Model for Turns {
    ghost use Rattle.std.specs.Prelude.{◌≤◌, ◌-◌};
    ghost use Rattle.workers.specs.Turns.{TheTurns};

    ghost Value = { TheTurns };

    ghost view = { λ turns. record { all = turns.all; left = turns.all - turns.taken } };

    ghost invariant = { λ turns. turns.taken ≤ turns.all };
}

impl Turns {
    /// This number of turns, of which none is taken.
    pub fn new(all: u32) -> Turns
        ensures { result ≡ untaken all }
    {
        Turns { all, taken: 0 }
    }

    /// Takes a turn. False where none is left.
    pub fn take(&mut self) -> bool
        ensures all { self.new.all ≡ self.old.all }
        ensures one { result ≡ true → self.new.left + 1 ≡ self.old.left }
        ensures none { result ≡ false → (self.new.left ≡ 0) × (self.old.left ≡ 0) }
    {
        if self.taken == self.all {
            return false;
        }
        self.taken += 1;
        true
    }
}
