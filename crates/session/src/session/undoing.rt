//! A session that begins again, and the commands that it would then do.
use super::Session;
use crate::reading::{Line, may_change};
use back::OfProgram;
use core::mem::replace;
use instructions::{Memory, Predictor};
use std::alloc::{AllocError, Global};
use std::sync::Wait;

impl<'a, P: Predictor + Copy + Drop, J: OfProgram> Session<'a, P, J> {
    ghost use Rattle.std.specs.Prelude.{OnOk};
    ghost use Rattle.session.specs.Sessions.{IsStartOfSession};

    /// Goes back to the start.
    pub(crate) fn begin_again<R: Wait>(&mut self, wait: &R, alloc: Global) -> Result<(), Memory>
        ensures { OnOk result (IsStartOfSession self.old.core.program self.old.config self.new) }
    {
        let fresh = Self::new(alloc, self.program, &self.past.config, self.past.predictor)?;
        replace(self, fresh).end(wait);
        Ok(())
    }
}

impl<'a, P: Predictor + Drop, J: OfProgram> Session<'a, P, J> {
    ghost use Rattle.std.specs.Prelude.{◌≡◌, OnOk, []};
    ghost use Rattle.session.specs.Undoing.{with_line};

    /// Notes a line that was done, if it may have changed something.
    pub(crate) fn note(&mut self, line: Line) -> Result<(), AllocError>
        ensures { OnOk result (self.new ≡ with_line line self.old) }
    {
        let _ = &self.core;
        if may_change(line) {
            self.past.lines.push(line)?;
        }
        Ok(())
    }

    /// The lines that were noted, of which none is any more.
    pub(crate) fn take_lines(&mut self, alloc: Global) -> Vec<Line>
        ensures lines { result.items ≡ self.old.lines }
        ensures none { self.new ≡ record self.old { lines = [] } }
    {
        let _ = &self.core;
        replace(&mut self.past.lines, Vec::new(alloc))
    }
}
