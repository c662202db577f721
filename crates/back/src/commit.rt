//! Commit.
ghost use Rattle.std.specs.Prelude.{◌≡◌, ◌<◌, ◌-◌, ◌^◌, length};
ghost use Rattle.back.specs.Backs.{back_state};
ghost use Rattle.back.specs.Commits.{CommitAnswers};
ghost use Rattle.station.specs.declared.answers.Last.TheVariants.{Stored};
ghost use Rattle.back.specs.Retirement.{StoreIsInside, low_in, goes_on_at, state_behind, stop_in, with_done, behind_last, with_store, value_written};

use crate::answers::Commit;
use crate::backs::Back;
use inorder::{Committed, wrapped};
use instructions::{Half, Instr, Kind, Stop, pc_plus_4};
use snapshots::OfProgram;
use station::{Core, Last, Retire};

// The value that an instruction writes that is done with v. A jump that links writes its return address.
fn written(kind: Kind, pc: u32, v: u32) -> u32
    ensures { result ≡ value_written kind pc v }
{
    match kind {
        Kind::Jumps | Kind::Links => pc_plus_4(pc),
        _ => v,
    }
}

fn next(kind: Kind, pc: u32, v: u32) -> u32
    ensures { result ≡ goes_on_at kind pc v }
{
    match kind {
        Kind::Jumps | Kind::Links => v,
        _ => pc_plus_4(pc),
    }
}

fn commit_done(committed: &mut Committed, instr: &Instr, half: Half, v: u32)
    requires { committed.old.count < 2 ^ 64 - 1 }
    ensures { committed.new ≡ with_done instr.now half v committed.old }
{
    let kind = instr.op().kind();
    let pc = committed.pc();
    committed.advance(
        instr.destination(half),
        written(kind, pc, v),
        next(kind, pc, v),
    );
}

fn commit_store(committed: &mut Committed, instr: &Instr, half: Half, address: u32, content: u32)
    requires count { committed.old.count < 2 ^ 64 - 1 }
    requires inside { StoreIsInside (length committed.old.memory) instr.now
        (Stored address content) }
    ensures { committed.new ≡ with_store instr.now half address content committed.old }
{
    let pc = committed.pc();
    let width = instr.op().width() as usize;
    committed.store_at(address as usize, width, content);
    committed.advance(instr.destination(half), 0, pc_plus_4(pc));
}

// Commits an instruction that retired whole: its value goes into its register, and a store writes memory. A
// stop changes nothing.
fn commit_last(committed: &mut Committed, instr: &Instr, half: Half, last: Last)
    requires count { committed.old.count < 2 ^ 64 - 1 }
    requires inside { StoreIsInside (length committed.old.memory) instr.now last }
    ensures { committed.new ≡ behind_last instr.now half last committed.old }
{
    match last {
        Last::Done(v) => commit_done(committed, instr, half, v),
        Last::Stored(address, content) => commit_store(committed, instr, half, address, content),
        Last::Stop(_) => {}
    }
}

// The result of a first half, which is held until the second half retires.
fn low_value(instr: &Instr, half: Half, last: Last) -> Option<u32>
    ensures { result ≡ low_in instr.now half last }
{
    match last {
        Last::Done(v) if instr.is_first_half(half) => Some(v),
        _ => None,
    }
}

// Commits a retired tenant, and gives what waits then. A first half leaves the state as it is; with any other
// its instruction is whole, and what waited for it goes into LO.
fn commit_tenant(
    committed: &mut Committed,
    waited: Option<u32>,
    instr: &Instr,
    half: Half,
    last: Last,
) -> Option<u32>
    requires count { committed.old.count < 2 ^ 64 - 1 }
    requires inside { StoreIsInside (length committed.old.memory) instr.now last }
    ensures low { result ≡ low_in instr.now half last }
    ensures state { committed.new ≡ state_behind instr.now half last waited committed.old }
{
    let waits = low_value(instr, half, last);
    if waits.is_none() {
        committed.write_low(waited);
        commit_last(committed, instr, half, last);
    }
    waits
}

fn stop(last: Last) -> Option<Stop>
    ensures { result ≡ stop_in last }
{
    match last {
        Last::Stop(code) => Some(code),
        _ => None,
    }
}

impl<J: OfProgram> Back<J> {
    /// Retires the oldest live tenant, if it can retire, and commits it: what it made goes into its register,
    /// and a store writes memory. What the first half of an instruction made waits for the second. Once it has
    /// answered `Ended` it makes no step any more.
    /// This is commit in order, from the head of Sohi's register update unit or of the reorder
    /// buffer of Smith and Pleszkun: whatever has not retired, the committed state is precise.
    pub fn commit(&mut self, core: &Core) -> Commit
        requires core { self.old.core ≡ core.now }
        requires count { (back_state self.old).count < 2 ^ 64 - 1 }
        ensures core { self.new.core ≡ self.old.core }
        ensures by { self.new.by ≡ self.old.by }
        ensures shown { self.new.shown ≡ self.old.shown }
        ensures woken { self.new.woken ≡ self.old.woken }
        ensures reply { CommitAnswers self.old self.new result }
    {
        if let Some(code) = self.ended {
            return Commit::Ended(code);
        }
        let pc = self.committed.pc();
        let Some(instr) = core.program().fetch(pc) else {
            self.ended = Some(Stop::BadPc);
            return Commit::Ended(Stop::BadPc);
        };
        let ring = core.ring();
        let (half, last) = match core.retire(&mut self.seat) {
            Retire::Retired { half, last, .. } => (half, last),
            Retire::NotDone => return Commit::NotDone,
            Retire::Empty => return Commit::Empty,
            // no stop has retired, since a back that has retired one has ended
            Retire::Over => return Commit::Empty,
        };
        self.head = wrapped(self.head + 1, ring);
        self.ended = stop(last);
        self.low = commit_tenant(&mut self.committed, self.low, &instr, half, last);
        match (self.ended, self.low) {
            (Some(code), _) => Commit::Ended(code),
            (None, Some(_)) => Commit::Half { pc },
            (None, None) => Commit::Retired {
                pc,
                n: self.committed.count(),
            },
        }
    }
}
