//! Who is woken by a load, and by who has waited for it.
ghost use Rattle.std.specs.Prelude.{◌≡◌};

use crate::hands::{Setup, by_hand, finishes, let_at, set_up};
use crate::same::same;
use back::{Back, OfProgram, Refresh};
use instructions::Program;
use station::{Core, UnitSeat};
use std::marker::Brand;
use std::process::Abort;
use std::sync::Wait;
use std::test::Fail;

/// Of whom the back and the unit say that they have woken them: the back before its load and after it, the unit after
/// the job that the load has woken, and the back where it is idle again.
type Woken = ((u32, Refresh), (u32, u32), (Refresh, u32));

// The back names the station that waits for the load; the unit that works there names the next one.
fn woken_in_turn<J: OfProgram>(
    rt: &impl Abort,
    core: &Core,
    program: &Program,
    back: &mut Back<J>,
    unit: &mut UnitSeat,
) -> Woken
    requires back { back.old.core ≡ core.now }
    requires unit { unit.old.core ≡ core.now }
    requires program { program.now ≡ core.now.program }
    ensures { back.new.core ≡ core.now }
{
    finishes(rt, core, program, unit, &[0]);
    let before = (back.woken(), back.refresh(core));
    let by_the_load = back.woken();
    finishes(rt, core, program, unit, &[1]);
    (
        before,
        (by_the_load, unit.woken()),
        (back.refresh(core), back.woken()),
    )
}

fn woken_by_a_load<J: OfProgram, R: Wait + Abort>(rt: &R, setup: &Setup) -> Result<(), Fail>
    requires { setup.now.program ≡ J.program }
{
    let lets = [
        let_at(0, 1, 0x0040_0000),
        let_at(1, 1, 0x0040_0004),
        let_at(2, 1, 0x0040_0008),
    ];
    let (core, _front, mut back, _snapper, mut unit) = by_hand::<J>(rt, setup, 4, &lets)?;
    let woken = woken_in_turn(rt, &core, &setup.program, &mut back, &mut unit);
    let loaded = Refresh::Loaded {
        station: 0,
        tag: 1,
        value: 7,
    };
    same(rt, &woken, &((0, loaded), (2, 4), (Refresh::Idle, 2)));
    same(rt, &back.end(rt).n, &0);
    Ok(())
}

#[test]
fn a_load_wakes_its_consumer(rt: HostRuntime) -> Result<(), Fail> {
    let listing = b".word 7\nlw $1,0($0)\naddu $2,$1,$1\naddu $3,$2,$2\nbreak\n";
    let setup = set_up(rt.alloc(), listing, 4, 1, 1)?;
    woken_by_a_load::<Brand, _>(&rt, &setup)
}
