//! The committed state, as it is read.
ghost use Rattle.std.specs.Prelude.{◌≡◌};
ghost use Rattle.inorder.specs.Callers.{head_station};
ghost use Rattle.back.specs.Backs.{back_state, unit_in};

use crate::backs::Back;
use snapshots::OfProgram;

impl<J: OfProgram> Back<J> {
    /// The pc of the instruction that is committed next.
    pub fn pc(&self) -> u32
        ensures { result ≡ (back_state self.now).pc }
    {
        self.committed.pc()
    }

    /// The committed registers, register 0 first; after the general ones stand LO and HI.
    pub fn registers(&self) -> &[u32; 34]
        ensures { result.now ≡ (back_state self.now).registers }
    {
        self.committed.registers()
    }

    /// The committed bytes of data memory.
    pub fn memory(&self) -> &[u8]
        ensures { result.now ≡ (back_state self.now).memory }
    {
        self.committed.memory()
    }

    /// The station of the oldest live tenant, or of the next one where nobody is live.
    pub fn head(&self) -> usize
        ensures { result ≡ head_station self.now.core.sizes (unit_in self.now.core self.now.seen) }
    {
        self.head
    }
}
