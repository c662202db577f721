//! Hints on one thread, and want of memory.
ghost use Rattle.std.specs.Prelude.{◌≡◌, IfOk};

use crate::same::same;
use hints::{Hints, Ring};
use std::alloc::{AllocError, Global};
use std::marker::Brand;
use std::sync::Wait;
use std::test::Fail;
use workers::hint_each;

// A queue of two stations, at the second try where the first was refused memory.
fn made<J: Ring>(alloc: Global) -> Result<Hints<J>, AllocError>
    requires { J.ring ≡ 2 }
    ensures { IfOk result (λ hints. hints.ring ≡ 2) }
{
    match Hints::<J>::new(alloc, 2) {
        Ok(hints) => Ok(hints),
        Err(_) => Hints::<J>::new(alloc, 2),
    }
}

// Four hints are there to be taken, and a fifth is dropped.
fn filled<J: Ring, R: Wait>(
    rt: &R,
    alloc: Global,
) -> Result<([bool; 5], [Option<u32>; 5]), AllocError>
    requires { J.ring ≡ 2 }
{
    let hints = made::<J>(alloc)?;
    let mut one = hints.hinter();
    let mut other = hints.hinter();
    let put = [
        hints.push(rt, &mut one, 0),
        hints.push(rt, &mut other, 1),
        hints.push(rt, &mut one, 1),
        hints.push(rt, &mut one, 0),
        hints.push(rt, &mut other, 0),
    ];
    let taken = [
        hints.pop(rt, &mut other),
        hints.pop(rt, &mut one),
        hints.pop(rt, &mut other),
        hints.pop(rt, &mut other),
        hints.pop(rt, &mut one),
    ];
    Ok((put, taken))
}

#[test]
fn hints_are_taken_in_order_and_dropped_where_the_queue_is_full(
    rt: HostRuntime,
) -> Result<(), Fail> {
    let (put, taken) = filled::<Brand, HostRuntime>(&rt, rt.alloc())?;
    same(&rt, &put, &[true, true, true, true, false]);
    same(&rt, &taken, &[Some(0), Some(1), Some(1), Some(0), None]);
    Ok(())
}

// Stations 1 and 3 of four are hinted, and what is then taken.
fn hinted<J: Ring, R: Wait>(rt: &R, alloc: Global) -> Result<[Option<u32>; 3], AllocError>
    requires { J.ring ≡ 4 }
{
    let hints = Hints::<J>::new(alloc, 4)?;
    let mut one = hints.hinter();
    let mut other = hints.hinter();
    hint_each(rt, &hints, &mut one, 4, 0b1010);
    Ok([
        hints.pop(rt, &mut other),
        hints.pop(rt, &mut other),
        hints.pop(rt, &mut other),
    ])
}

#[test]
fn stations_are_hinted_the_lowest_first(rt: HostRuntime) -> Result<(), Fail> {
    let taken = hinted::<Brand, HostRuntime>(&rt, rt.alloc())?;
    same(&rt, &taken, &[Some(1), Some(3), None]);
    Ok(())
}
