//! Snapshots of what was committed.
ghost use Rattle.std.specs.Prelude.{◌≡◌, IfOk, OnErr, OnOk};
ghost use Rattle.snapshots.specs.Snapshots.{snapshot};
ghost use Rattle.back.specs.Backs.{back_state};

use crate::backs::Back;
use instructions::Memory;
use snapshots::{Mark, OfProgram, Snap};
use std::sync::Wait;

impl<J: OfProgram> Back<J> {
    /// Shows the committed state to the snappers, by one step. It waits for those that are reading. At an
    /// error nothing is shown.
    pub fn show<R: Wait>(&mut self, wait: &R) -> Result<Mark, Memory>
        ensures ok { OnOk result (self.new ≡ record self.old
            { shown = snapshot (back_state self.old) }) }
        ensures mark { IfOk result (λ mark. mark.n ≡ (back_state self.old).count) }
        ensures err { OnErr result (self.new ≡ self.old) }
    {
        let snap = Snap {
            n: self.committed.count(),
            pc: self.committed.pc(),
            registers: *self.committed.registers(),
        };
        self.publisher.publish(wait, snap)
    }
}
