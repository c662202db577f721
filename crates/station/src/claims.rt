//! Claims.
ghost use Rattle.std.specs.Prelude.{◌<◌, ◌≡◌, true};
ghost use Rattle.instructions.specs.Programs.{address};
ghost use Rattle.inorder.specs.declared.history.Source.TheVariants.{Second};
ghost use Rattle.inorder.specs.Tenants.{needs};
ghost use Rattle.station.specs.Calls.{AnswersSource, ComesTo, IsLegalCall, IsSameCall, Saw};
ghost use Rattle.station.specs.Answers.{AnswersClaim};
ghost use Rattle.station.specs.Claiming.{ClaimAnswers, IsNext, IsOpenAs, SourceSays};
ghost use Rattle.station.specs.Seats.{IsSameSeat};

use crate::answers::Claim;
use crate::call::Call;
use crate::cores::Core;
use crate::job::Job;
use crate::seat::{UnitPart, UnitSeat};
use crate::words::{busy_word, open_word};
use atomic_table::Seat;
use inorder::history::Source;
use instructions::{Kind, Program};
use ruu_words::rule::View;
use ruu_words::{InfoWord, OperandState, OperandWord, StationState, StationWord};

// The address of an instruction. No program is so long that the address wraps.
fn pc_of(index: u32) -> u32
    requires { index < 16384 }
    ensures { result ≡ address index }
{
    Program::START + 4 * index
}

fn needs_second(kind: Kind) -> bool
    ensures { result ≡ needs kind Second }
{
    !matches!(kind, Kind::Stores)
}

// The value in a source's word, or the refusal of the claim, for a tenant with this tag.
fn source_says(word: u64, tag: u32, k: Source) -> Result<u32, Claim>
    ensures { SourceSays word tag k result }
{
    let operand = OperandWord::unpack(word);
    if operand.tag != tag {
        return Err(Claim::Moved { tag });
    }
    match operand.state {
        OperandState::Val => Ok(operand.value),
        OperandState::Wait => Err(Claim::Waiting { tag, k }),
    }
}

impl<'a> Call<'a, UnitPart> {
    // The value of a source, 0 where it is not needed.
    fn read_needed(
        &mut self,
        station: usize,
        tag: u32,
        k: Source,
        needed: bool,
    ) -> Result<u32, Claim>
        requires legal { IsLegalCall self.old }
        requires seen { Saw self.old station tag
            (λ t. needed ≡ true → IsNext self.old.core.program k t) }
        ensures same { IsSameCall self.old self.new }
        ensures answer { AnswersSource self.old self.new station tag k needed result }
    {
        if !needed {
            return Ok(0);
        }
        let word = self.read_source(station, tag, k);
        source_says(word, tag, k)
    }

    // Claims the tenant of this station and tag, which was open when its info word was read.
    fn claim_open(&mut self, station: usize, tag: u32, info: InfoWord) -> Claim
        requires { Saw self.old station tag (IsOpenAs info.half info.index info.predicted) }
        ensures { ComesTo self.old self.new (AnswersClaim station result) }
    {
        let InfoWord {
            half,
            index,
            predicted,
        } = info;
        let core = self.core;
        let kind = core.program.instr(index as usize).op().kind();
        let both = needs_second(kind);
        let a = match self.read_needed(station, tag, Source::First, true) {
            Ok(value) => value,
            Err(refusal) => return refusal,
        };
        let b = match self.read_needed(station, tag, Source::Second, both) {
            Ok(value) => value,
            Err(refusal) => return refusal,
        };
        let open = open_word(tag);
        let busy = busy_word(tag);
        let found = self.claim_tenant(station, open, busy);
        if found != open {
            return Claim::Moved { tag };
        }
        let pc = pc_of(index);
        Claim::Job(Job {
            station,
            tag,
            index,
            half,
            pc,
            predicted,
            a,
            b,
        })
    }

    // Looks for an open tenant, and reads its info word between two looks.
    fn claim_at(&mut self, station: usize) -> Claim
        requires { station < self.old.core.sizes.ring }
        ensures { ComesTo self.old self.new (AnswersClaim station result) }
    {
        let found = self.peek(station);
        let StationWord { tag, state, .. } = StationWord::unpack(found);
        if state != StationState::Open {
            return Claim::NotOpen;
        }
        let open = open_word(tag);
        let word = self.read_info(station);
        let again = self.recheck(station, open);
        if again != open {
            return Claim::Moved { tag };
        }
        let info = InfoWord::unpack(word);
        self.claim_open(station, tag, info)
    }
}

impl Core {
    /// Claims the open tenant of a station, if all that it needs is there.
    /// This is issue, or select: an instruction goes from its reservation station to a functional
    /// unit once its operands are there (Tomasulo 1967).
    pub fn claim(&self, seat: &mut UnitSeat, station: usize) -> Claim
        requires core { seat.old.core ≡ self.now }
        requires station { station < self.now.sizes.ring }
        ensures kept { IsSameSeat seat.old seat.new }
        ensures woken { seat.new.woken ≡ seat.old.woken }
        ensures spare { seat.new.spare ≡ seat.old.spare }
        ensures reply { ClaimAnswers self.now.program self.now.sizes seat.old.by seat.old.seen
            seat.new.seen station result }
    {
        let mut call = Call::<UnitPart>::of(self, &mut seat.seat);
        let answer = call.claim_at(station);
        let Call { seat: given, .. } = call;
        let _given: &Seat<u8, View> = given;
        answer
    }
}
