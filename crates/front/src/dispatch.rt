//! Letting a tenant, with its questions.
ghost use Rattle.std.specs.Prelude.{◌≡◌, ◌<◌, ◌≤◌, IfSome};
ghost use Rattle.inorder.specs.History.{IsLegal, front, unit_of};
ghost use Rattle.instructions.specs.Instruction.{fixed_next};
ghost use Rattle.front.specs.CreateTable.{IsTouched};
ghost use Rattle.front.specs.Fetching.{CanBeLet};
ghost use Rattle.front.specs.Fronts.{KnowsPath, KnowsTable};
ghost use Rattle.front.specs.Knows.{RecordsAreReady};
ghost use Rattle.front.specs.Questions.{Asks, IsDispatched, MayAskFor};
ghost use Rattle.station.specs.Seats.{IsSameSeat};

use crate::fetch::Fetched;
use crate::needs::supply;
use crate::path::{CountedTable, Path};
use inorder::history::Source;
use instructions::Program;
use station::{Core, FrontSeat, Supply, Tenant};

// Asks for a source that comes from its creator.
fn ask(core: &Core, seat: &mut FrontSeat, station: usize, tag: u32, k: Source, from: Supply)
    requires core { seat.old.core ≡ core.now }
    requires by { seat.old.by ≡ front }
    requires station { station < core.now.sizes.ring }
    requires may { MayAskFor core.now.program core.now.sizes seat.old.seen station tag k from }
    ensures kept { IsSameSeat seat.old seat.new }
    ensures reply { Asks core.now.program core.now.sizes
        seat.old.seen seat.new.seen station tag k from }
{
    if let Supply::From {
        station: creator,
        tag: its_tag,
    } = from
    {
        core.ask(seat, station, tag, k, (creator, its_tag));
    }
}

/// Lets the instruction, asks for its sources, and gives its tag.
pub fn dispatch(
    core: &Core,
    seat: &mut FrontSeat,
    path: &mut Path,
    creators: &mut CountedTable,
    next: &Fetched,
    predicted: u32,
) -> u32
    requires core { seat.old.core ≡ core.now }
    requires by { seat.old.by ≡ front }
    requires most { core.now.sizes.ring ≤ 32 }
    requires legal { IsLegal core.now.program core.now.sizes seat.old.seen }
    requires ready { RecordsAreReady core.now.program core.now.sizes
        (unit_of core.now.program core.now.sizes seat.old.seen) path.old.records path.old.base }
    requires table { KnowsTable core.now seat.old.seen path.old.base creators.old }
    requires next { CanBeLet core.now.program core.now.sizes seat.old.seen next.now }
    requires fixed { IfSome (fixed_next next.now.instr next.now.half next.now.pc)
        (λ x. predicted ≡ x) }
    ensures kept { IsSameSeat seat.old seat.new }
    ensures reply { IsDispatched core.now.program core.now.sizes
        seat.old.seen seat.new.seen next.now predicted result }
    ensures base { path.new.base ≡ path.old.base }
    ensures knows { KnowsPath core.now seat.new.seen path.new }
    ensures table { KnowsTable core.now seat.new.seen path.new.base creators.new }
    ensures touched { IsTouched 8 creators.old.touched creators.new.touched }
{
    let first = supply(path, creators, next.station, next.instr.first());
    let second = supply(path, creators, next.station, next.instr.second());
    let index = next.pc.saturating_sub(Program::START) / 4;
    let tenant = Tenant {
        index,
        half: next.half,
        predicted,
        sources: (first, second),
    };
    let tag = core.let_out(seat, tenant);
    path.enter(creators, next, tag, predicted);
    ask(core, seat, next.station, tag, Source::First, first);
    ask(core, seat, next.station, tag, Source::Second, second);
    tag
}
