//! A predictor that answers anything.
ghost use Rattle.std.specs.Prelude.{◌≡◌, ◌<◌};

use crate::hands::{Done, finished, let_at, made, takes, work};
use crate::same::same;
use front::{Front, Recovery, Turn};
use instructions::{Instr, Outcome, Predictor, Program};
use station::{Core, UnitSeat};
use std::process::Abort;
use std::test::Fail;

// Answers 1, whatever it is asked.
#[derive(Drop)]
struct One;

impl Predictor for One {
    ghost Predicts = { λ old _ _ answer new. (answer ≡ 1) × (new ≡ old) };

    ghost Learns = { λ old _ _ new. new ≡ old };

    fn predict(&mut self, _pc: u32, _instr: &Instr) -> u32 {
        1
    }

    fn told(&mut self, _pc: u32, _next: u32) {}
}

const BRANCH: &[u8] = b"beq $0,$0,E\nE: break\n";

// The branch is let with the prediction 1, and finished; what came of it, and of the recovery that follows.
fn mended(
    rt: &impl Abort,
    core: &Core,
    program: &Program,
    front: &mut Front<'_, One>,
    unit: &mut UnitSeat,
) -> (Option<Done>, Recovery)
    requires front { front.old.core ≡ core.now }
    requires unit { unit.old.core ≡ core.now }
    requires program { program.now ≡ core.now.program }
    requires ring { 0 < core.now.sizes.ring }
    ensures { front.new.core ≡ core.now }
{
    takes(rt, core, front, &[let_at(0, 1, 0x0040_0000), Turn::NoInstr]);
    let branch = work(core, program, unit, 0);
    (branch, front.recover(core))
}

#[test]
fn a_predictor_may_answer_anything(rt: HostRuntime) -> Result<(), Fail> {
    let (program, config) = made(rt.alloc(), BRANCH, 4, 1, 1)?;
    let (core, seat, _back, mut unit) = Core::make(rt.alloc(), &program, &config)?;
    assert!(rt; core.ring() == 4);
    let mut front = Front::new(&core, seat, &program, One);
    let found = mended(&rt, &core, &program, &mut front, &mut unit);
    takes(&rt, &core, &mut front, &[let_at(1, 1, 0x0040_0004)]);
    let branch = finished(0, 0, Outcome::Next(0x0040_0004));
    let recovery = Recovery::Mended {
        station: 0,
        squashed: 0,
    };
    same(&rt, &found, &(Some(branch), recovery));
    Ok(())
}
