//! The front, as its callers see it.
ghost use Rattle.std.specs.Prelude.{◌≡◌, ◌<◌, ◌*◌, []};
ghost use Rattle.instructions.specs.Histories.{StartsWith};
ghost use Rattle.inorder.specs.OneHistory.{Adds};
ghost use Rattle.front.specs.CreateTable.{IsTouched};
ghost use Rattle.front.specs.Fronts.{AddsNothing, CreatorOf, FrontRecoversTo, IsUnused, RestsTo, TurnsTo};
ghost use Rattle.front.specs.Recoveries.{squashed_by};
ghost use Rattle.front.specs.Rests.{rested_after, trained_after};
ghost use Rattle.front.specs.Training.{always_answers};
ghost use Rattle.station.specs.Looking.{SeesStation};
ghost use Rattle.station.specs.Seats.{IsSameSeat};

use crate::answers::{Made, Recovery, Rest, Turn};
use crate::path::{Base, Creators, Path};
use crate::recovery::recover_on;
use crate::rest::rest_on;
use crate::turning::turn_on;
use instructions::{Predictor, Program, Reg};
use station::{Core, FrontSeat, Part, SeatOf, Seen, StationState, what_is_seen_is_legal};
use std::marker::Model;

/// The front of a core: it alone lets tenants, and squashes and mends. Its predictor is asked for the next pc of a
/// conditional branch, `jr` or `jalr` when that is let, and told how such an instruction went on, if it has retired,
/// when its station is let again or the front rests.
#[derive(Drop)]
pub struct Front<'a, P: Predictor + Drop> {
    pub(crate) seat: FrontSeat,
    pub(crate) program: &'a Program,
    pub(crate) path: Path,
    pub(crate) creators: Creators,
    pub(crate) predictor: P,
    // a rest found nobody in flight, and there was no turn or recovery since
    pub(crate) rested: bool,
}

impl<'a, P: Predictor + Drop> Model for Front<'a, P> {
    ghost use Rattle.front.specs.Fronts.{IsFront, TheFront};
    ghost use Rattle.front.specs.Path.{rested_at};

    ghost Value = { TheFront P };

    ghost view = { λ f. record {
      core = f.seat.core;
      seen = f.seat.seen;
      predictor = f.predictor;
      touched = f.creators.counted.touched;
      trained_upto = rested_at f.path.base;
      rested = f.rested;
    } };

    ghost invariant = { λ f. IsFront f.program.now f.seat f.path f.creators.counted f.rested };
}

impl<'a, P: Predictor + Drop> Front<'a, P> {
    /// The front of a core, with its seat and its program.
    pub fn new(core: &Core, seat: FrontSeat, program: &'a Program, predictor: P) -> Self
        requires seat { IsUnused core.now seat }
        requires program { program.now ≡ core.now.program }
        ensures core { result.core ≡ core.now }
        ensures history { AddsNothing core.now seat.seen result.seen }
        ensures predictor { result.predictor ≡ predictor }
        ensures trained_upto { result.trained_upto ≡ 0 }
        ensures touched { result.touched ≡ 0 }
    {
        what_is_seen_is_legal(&seat);
        let base = Base::new(&seat);
        Front {
            seat,
            program,
            path: Path::new(base),
            creators: Creators::new(),
            predictor,
            rested: false,
        }
    }

    /// Lets the next instruction, or says why it cannot.
    /// This is dispatch with renaming, sim-outorder's `ruu_dispatch`: sources are looked up in the
    /// create vector, and the new tenant enters it as the newest writer of its register.
    pub fn turn(&mut self, core: &Core) -> Turn
        requires { self.old.core ≡ core.now }
        ensures core { self.new.core ≡ core.now }
        ensures reply { TurnsTo P.Predicts P.Learns core.now self.old self.new result }
        ensures trained_upto { self.new.trained_upto ≡ self.old.trained_upto }
        ensures touched { IsTouched 9 self.old.touched self.new.touched }
    {
        self.rested = false;
        turn_on(
            core,
            &mut self.seat,
            &mut self.path,
            &mut self.creators.counted,
            self.program,
            &mut self.predictor,
            None,
        )
    }

    /// A turn whose guess is given: where the predictor would be asked for the next pc, it is `next`. The predictor is
    /// told of who leaves as in any turn, and a guess may be any number, as a predictor's answer may.
    pub fn turn_to(&mut self, core: &Core, next: u32) -> Turn
        requires { self.old.core ≡ core.now }
        ensures core { self.new.core ≡ core.now }
        ensures reply { TurnsTo (always_answers next) P.Learns core.now self.old self.new result }
        ensures trained_upto { self.new.trained_upto ≡ self.old.trained_upto }
        ensures touched { IsTouched 9 self.old.touched self.new.touched }
    {
        self.rested = false;
        turn_on(
            core,
            &mut self.seat,
            &mut self.path,
            &mut self.creators.counted,
            self.program,
            &mut self.predictor,
            Some(next),
        )
    }

    /// Looks for the oldest miss, squashes all tenants after it, and mends it.
    /// This is recovery from a misprediction, sim-outorder's `ruu_recover`.
    pub fn recover(&mut self, core: &Core) -> Recovery
        requires { self.old.core ≡ core.now }
        ensures core { self.new.core ≡ core.now }
        ensures reply { FrontRecoversTo core.now self.old self.new result }
        ensures trained_upto { self.new.trained_upto ≡ self.old.trained_upto }
        ensures touched { IsTouched (2 * squashed_by result) self.old.touched self.new.touched }
        ensures predictor { self.new.predictor ≡ self.old.predictor }
    {
        self.rested = false;
        recover_on(
            core,
            &mut self.seat,
            &mut self.path,
            &mut self.creators.counted,
        )
    }

    /// Whether anybody is in flight. If nobody is, the last tenants of the path go to the base registers, the
    /// predictor is told of them, the oldest first, and they create no register any more; so the front can leave
    /// its core. Takes no memory.
    pub fn rest(&mut self, core: &Core) -> Rest
        requires { self.old.core ≡ core.now }
        ensures core { self.new.core ≡ core.now }
        ensures reply { RestsTo P.Learns core.now self.old self.new result }
        ensures trained_upto { self.new.trained_upto ≡ trained_after core.now.program
            core.now.sizes self.old.trained_upto self.new.seen result }
        ensures rested { self.new.rested ≡ rested_after self.old.rested result }
        ensures touched { self.new.touched ≡ self.old.touched }
    {
        let rest = rest_on(
            core,
            &mut self.seat,
            &mut self.path,
            &mut self.creators,
            &mut self.predictor,
        );
        if let Rest::Idle = rest {
            self.rested = true;
        }
        rest
    }

    /// The creator of a register, or its value.
    /// The create vector is that of SimpleScalar's sim-outorder, in the place of a register alias
    /// table: results stay in their reservation stations, so there are no physical registers.
    pub fn creator(&self, r: Reg) -> Made
        ensures { CreatorOf self.now r result }
    {
        let at = r.number() as usize;
        match self.creators.peek(r) {
            Some(creator) => Made::Made {
                station: creator.station,
                tag: creator.tag,
            },
            None => Made::Base(self.path.base.registers[at]),
        }
    }

    /// How many records and entries of the create vector turns and recoveries have read or written, modulo 2^64.
    pub fn touched(&self) -> u64
        ensures { result ≡ self.now.touched }
    {
        self.creators.touched()
    }

    /// The word of a station.
    pub fn look(&mut self, core: &Core, station: usize) -> Seen<StationState>
        requires core { self.old.core ≡ core.now }
        requires station { station < core.now.sizes.ring }
        ensures core { self.new.core ≡ core.now }
        ensures history { AddsNothing core.now self.old.seen self.new.seen }
        ensures reply { SeesStation core.now.program core.now.sizes self.new.seen station result }
        ensures predictor { self.new.predictor ≡ self.old.predictor }
        ensures touched { self.new.touched ≡ self.old.touched }
        ensures trained_upto { self.new.trained_upto ≡ self.old.trained_upto }
        ensures rested { self.new.rested ≡ self.old.rested }
    {
        core.look(&mut self.seat, station)
    }

    /// Tells the front and another caller what the other has seen.
    pub fn meet<Q: Part>(&mut self, core: &Core, other: &mut SeatOf<Q>)
        requires core { self.old.core ≡ core.now }
        requires other { other.old.core ≡ core.now }
        ensures core { self.new.core ≡ core.now }
        ensures history { AddsNothing core.now self.old.seen self.new.seen }
        ensures told { StartsWith self.new.seen other.old.seen }
        ensures predictor { self.new.predictor ≡ self.old.predictor }
        ensures touched { self.new.touched ≡ self.old.touched }
        ensures trained_kept { self.new.trained_upto ≡ self.old.trained_upto }
        ensures rested { self.new.rested ≡ self.old.rested }
        ensures other_kept { IsSameSeat other.old other.new }
        ensures other_spare { other.new.spare ≡ other.old.spare }
        ensures other_woken { other.new.woken ≡ other.old.woken }
        ensures other_history { Adds core.now.program core.now.sizes
            other.old.by other.old.seen other.new.seen [] }
        ensures other_told { StartsWith other.new.seen self.new.seen }
    {
        core.meet(&mut self.seat, other);
    }
}
