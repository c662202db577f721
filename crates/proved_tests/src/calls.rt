//! Calls on the seats of one core, without a front and a back.
ghost use Rattle.std.specs.Prelude.{◌≡◌, ◌<◌, [], IfSome, length};
ghost use Rattle.instructions.specs.Instruction.{fixed_next};
ghost use Rattle.instructions.specs.Programs.{address, instr_of};
ghost use Rattle.instructions.specs.declared.op.Half.TheVariants.{Low};
ghost use Rattle.inorder.specs.Replies.{last_tag};
ghost use Rattle.station.specs.Seats.{IsSameSeat};

use crate::hands::{finish_one, made};
use crate::same::same;
use instructions::{Half, Program};
use station::{BackSeat, Core, FrontSeat, Last, Retire, Supply, Tenant, UnitSeat};
use std::process::Abort;
use std::test::Fail;

// Lets the first instruction, whose sources are 0.
fn let_first(core: &Core, seat: &mut FrontSeat, predicted: u32) -> u32
    requires core { seat.old.core ≡ core.now }
    requires new { seat.old.seen ≡ [] }
    requires there { 0 < length core.now.program.code }
    requires room { (0 < core.now.sizes.ring) × (0 < core.now.sizes.queue) }
    requires tag { core.now.sizes.first_tag < last_tag }
    requires predicted { IfSome (fixed_next (instr_of core.now.program 0) Low (address 0))
        (λ x. predicted ≡ x) }
    ensures kept { IsSameSeat seat.old seat.new }
{
    let tenant = Tenant {
        index: 0,
        half: Half::Low,
        predicted,
        sources: (Supply::Known(0), Supply::Known(0)),
    };
    core.let_out(seat, tenant)
}

const FIVE: &[u8] = b"addiu $1,$0,5\nbreak\n";

// Two units try the tenant of station 0, the second one after the first: what came of it, and whom each has woken.
fn tried_twice(
    core: &Core,
    program: &Program,
    unit: UnitSeat,
    front: &mut FrontSeat,
    back: &mut BackSeat,
) -> (bool, bool, (u32, u32))
    requires unit { unit.core ≡ core.now }
    requires front { front.old.core ≡ core.now }
    requires back { back.old.core ≡ core.now }
    requires program { program.now ≡ core.now.program }
    requires ring { 0 < core.now.sizes.ring }
    ensures back { back.new.core ≡ core.now }
{
    let (mut one, mut other) = core.split(unit);
    core.meet(front, &mut one);
    let finished = finish_one(core, program, &mut one, 0);
    core.meet(&mut one, &mut other);
    let again = finish_one(core, program, &mut other, 0);
    core.meet(&mut one, back);
    (finished, again, (one.woken(), other.woken()))
}

// Whether the tenant of station 0 retires with the value 5, and nobody after it.
fn retires_five(core: &Core, back: &mut BackSeat) -> bool
    requires { back.old.core ≡ core.now }
{
    let retired = core.retire(back);
    let empty = core.retire(back);
    let five = matches!(
        retired,
        Retire::Retired {
            station: 0,
            tag: 1,
            index: 0,
            half: Half::Low,
            last: Last::Done(5)
        }
    );
    five && matches!(empty, Retire::Empty)
}

#[test]
fn one_tenant_is_let_claimed_finished_and_retired(rt: HostRuntime) -> Result<(), Fail> {
    let (program, config) = made(rt.alloc(), FIVE, 4, 1, 1)?;
    let (core, mut front, mut back, unit) = Core::make(rt.alloc(), &program, &config)?;
    assert!(rt; 0 < program.len() && core.ring() == 4 && core.queue() == 2);
    let first = program.instr(0).fixed_next(Half::Low, Program::START);
    let_first(&core, &mut front, first.unwrap_or(0));
    let tried = tried_twice(&core, &program, unit, &mut front, &mut back);
    let retired = retires_five(&core, &mut back);
    same(
        &rt,
        &(tried, retired, back.woken()),
        &((true, false, (0, 0)), true, 0),
    );
    Ok(())
}
