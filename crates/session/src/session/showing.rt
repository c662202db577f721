//! The committed state of a session, by snapshots and by a report.
use super::Session;
use crate::replies::{Refusal, Reply};
use back::OfProgram;
use inorder::Machine;
use instructions::{End, Memory, Predictor};
use std::alloc::Global;
use std::sync::Wait;

impl<'a, P: Predictor + Drop, J: OfProgram> Session<'a, P, J> {
    ghost use Rattle.std.specs.Prelude.{◌≡◌, IfOk};
    ghost use Rattle.back.specs.Backs.{back_state};
    ghost use Rattle.back.specs.Ends.{ending_of};
    ghost use Rattle.inorder.specs.Runs.{state_in};
    ghost use Rattle.session.specs.Sessions.{IsReplied, OnlyLooked};
    ghost use Rattle.session.specs.declared.commands.Command.TheVariants.{Learn, Report, Show, Take};

    pub(super) fn show<R: Wait>(&mut self, wait: &R) -> Reply
        ensures { IsReplied self.old self.new Show result }
    {
        self.back.meet(&self.core, &mut self.all);
        match self.back.show(wait) {
            Ok(mark) => {
                self.mark = Some(mark);
                Reply::Shown(mark)
            }
            Err(_) => Reply::Memory,
        }
    }

    pub(super) fn take(&mut self) -> Reply
        ensures { IsReplied self.old self.new Take result }
    {
        match self.snapper.take() {
            Ok(snap) => Reply::Taken(snap),
            Err(_) => Reply::Gone,
        }
    }

    pub(super) fn learn(&mut self) -> Reply
        ensures { IsReplied self.old self.new Learn result }
    {
        match self.mark {
            Some(mark) => {
                self.snapper.learn(&mark);
                Reply::Learnt
            }
            None => Reply::Refused(Refusal::NoMark),
        }
    }

    // The committed state. A back gives its memory away only at its end, so the machine in order runs as many instructions
    // as were committed: its state after them is the committed one.
    fn committed(&mut self, alloc: Global) -> Result<End, Memory>
        ensures stays { OnlyLooked self.old self.new }
        ensures state { IfOk result (λ end. state_in end ≡ back_state self.old.commits) }
        ensures outcome { IfOk result (λ end. end.outcome ≡ ending_of self.old.commits.ended) }
    {
        let (core, all, back) = (&self.core, &mut self.all, &mut self.back);
        back.meet(core, all);
        let mut machine = Machine::new(alloc, self.program)?;
        let count = back.n();
        machine.run(count);
        let memory = Vec::from_slice(alloc, machine.memory())?;
        Ok(End {
            n: machine.count(),
            pc: machine.pc(),
            outcome: back.outcome(),
            registers: *machine.registers(),
            memory,
        })
    }

    /// The committed state as a run would report it.
    pub(super) fn report(&mut self, alloc: Global) -> Reply
        ensures { IsReplied self.old self.new Report result }
    {
        match self.committed(alloc) {
            Ok(end) => Reply::Report(end),
            Err(Memory) => Reply::Memory,
        }
    }
}
