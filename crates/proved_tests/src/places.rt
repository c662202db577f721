//! How many snappers a back has.
ghost use Rattle.std.specs.Prelude.{◌≡◌};

use crate::hands::{Setup, by_hand, set_up};
use crate::same::same;
use back::OfProgram;
use std::marker::Brand;
use std::process::Abort;
use std::sync::Wait;
use std::test::Fail;

fn has_one_snapper<J: OfProgram, R: Wait + Abort>(rt: &R, setup: &Setup) -> Result<(), Fail>
    requires { setup.now.program ≡ J.program }
{
    let (_core, _front, back, mut snapper, _unit) = by_hand::<J>(rt, setup, 4, &[])?;
    let has_another = snapper.another().is_ok();
    same(rt, &back.end(rt).n, &0);
    assert!(rt; !has_another);
    Ok(())
}

#[test]
fn one_place_has_one_snapper(rt: HostRuntime) -> Result<(), Fail> {
    let setup = set_up(rt.alloc(), b"break\n", 4, 1, 1)?;
    has_one_snapper::<Brand, _>(&rt, &setup)
}
