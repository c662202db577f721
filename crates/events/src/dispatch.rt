//! Dispatch.
ghost use Rattle.std.specs.Prelude.{◌≡◌, ◌⊎◌, ◌<◌, ◌^◌, IfErr, IfNone, IfOk, IfSome, IsFalse, IsTrue, None, OnOk, [], length};
ghost use Rattle.instructions.specs.Instruction.{fixed_next};
ghost use Rattle.instructions.specs.Programs.{address, instr_at, instr_of};
ghost use Rattle.events.specs.Denied.{DeniesLet, IsOther};
ghost use Rattle.events.specs.Following.{Follows};
ghost use Rattle.events.specs.Told.{IsLet, Lets, Refuses};
ghost use Rattle.replay.specs.Lets.{IsFit};

use crate::judge::Judge;
use crate::why::Why;
use instructions::{Program, pc_plus_4};
use replay::{Fate, Front, NoLet};
use std::alloc::AllocError;

// No memory holds as many tenants.
const MOST: usize = 1 << 61;

// The number of the instruction at an address.
fn index_at(program: &Program, pc: u32) -> Option<usize>
    ensures inside { IfSome result (λ index. index < length program.now.code) }
    ensures at { IfSome result (λ index. address index ≡ pc) }
    ensures none { IfNone result (instr_at program.now pc ≡ None) }
{
    let index = (pc.wrapping_sub(Program::START) / 4) as usize;
    if index < program.len() && Program::START + 4 * index as u32 == pc {
        Some(index)
    } else {
        None
    }
}

// What the log says, if it says it, is where the path goes on.
fn goes_on_at(pc: Option<u32>, front: u32) -> bool
    ensures yes { IsTrue result → IfSome pc (λ x. x ≡ front) }
    ensures no { IsFalse result → IsOther pc front }
{
    match pc {
        Some(pc) => pc == front,
        None => true,
    }
}

impl<'a> Judge<'a> {
    // A known misprediction after which nothing is in flight is mended, where the log goes on at its real next pc. Where
    // the log does not say at which pc it goes on, it goes on there.
    fn mend_towards(&mut self, pc: Option<u32>)
        ensures { Follows self.old.unit [] self.new.unit }
    {
        let Some(youngest) = self.youngest() else {
            return;
        };
        let front = self.unit.front().pc;
        match self.unit.tenant(youngest).map(|t| t.fate) {
            Some(Fate::Miss(next)) if pc.is_none() || (pc == Some(next) && front != next) => {
                self.mend_unsaid(youngest);
            }
            _ => {}
        }
    }

    // The predicted next pc of the next instruction: the only one there is, what the log says, or a guess.
    fn predicted(&self, front: Front, index: usize, next: Option<u32>, guess: Option<u32>) -> u32
        requires { index < length self.now.unit.program.now.code }
        ensures said { IfSome next (λ x. x ≡ result) }
        ensures fixed { next ≡ None → IfSome (fixed_next (instr_of self.now.unit.program.now index) front.half front.pc) (λ x. x ≡ result) }
    {
        match next {
            Some(next) => next,
            None => match self
                .unit
                .program
                .instr(index)
                .fixed_next(front.half, front.pc)
            {
                Some(fixed) => fixed,
                None => guess.unwrap_or(pc_plus_4(front.pc)),
            },
        }
    }

    // There is a station, and numbers have their bits: no memory holds as many tenants.
    fn is_fit(&self) -> bool
        ensures { IsTrue result → IsFit self.now.unit }
    {
        0 < self.unit.ring && self.unit.tenants.len() < MOST && self.unit.first_tag < MOST as u64
    }

    /// The next instruction of the path enters a station.
    pub(crate) fn dispatch(
        &mut self,
        pc: Option<u32>,
        next: Option<u32>,
        guess: Option<u32>,
    ) -> Result<Result<(), Why>, AllocError>
        ensures ok { IfOk result (λ answer. OnOk answer (Lets self.old.unit pc next self.new.unit)) }
        ensures err { IfOk result (λ answer. IfErr answer (λ why. Refuses self.old.unit (λ ss. (ss ≡ []) ⊎ IsLet pc next ss) why self.new.unit)) }
        ensures denied { IfOk result (λ answer. IfErr answer (DeniesLet self.new.unit.program.now pc next)) }
    {
        self.mend_towards(pc);
        let front = self.unit.front();
        if !goes_on_at(pc, front.pc) {
            return Ok(Err(Why::Let(NoLet::OtherPc(front.pc))));
        }
        let Some(index) = index_at(self.unit.program, front.pc) else {
            return Ok(Err(Why::NoInstruction(front.pc)));
        };
        if !self.is_fit() {
            return Err(AllocError);
        }
        let who = self.unit.tenants.len();
        let predicted = self.predicted(front, index, next, guess);
        match self.unit.enter(index, predicted)? {
            Err(reason) => Ok(Err(Why::Let(reason))),
            Ok(_) => {
                self.unit.link_new(who);
                Ok(Ok(()))
            }
        }
    }
}
