//! One publisher and those who take what it shows.
ghost use Rattle.std.specs.Prelude.{◌≡◌};
ghost use Rattle.snapshots.specs.Snapshots.{IsSnapshotOf};

use crate::same::same;
use instructions::Memory;
use snapshots::{Gone, Mark, OfProgram, Publisher, Snap, Snapper};
use std::alloc::Global;
use std::sync::Wait;
use std::test::*;
use std::thread;
use std::thread::{Scope, Threads, yield_now};

// A program that puts 1, 2 and 3 into registers 1, 2 and 3.
struct ThreeAdds;

impl OfProgram for ThreeAdds {
    ghost use Rattle.std.specs.Prelude.{[], ◌∷◌};
    ghost use Rattle.instructions.specs.declared.op.Op.TheVariants.{Addiu};

    ghost program = { record {
      code = record { op = Addiu; target = 1; first = 0; second = 0; number = 1 }
          ∷ record { op = Addiu; target = 2; first = 0; second = 0; number = 2 }
          ∷ record { op = Addiu; target = 3; first = 0; second = 0; number = 3 }
          ∷ [];
      bytes = [];
    } };
}

fn after_one() -> Snap
    ensures n { result.n ≡ 1 }
    ensures snap { IsSnapshotOf ⟦<ThreeAdds as OfProgram>⟧.program result }
{
    let mut registers = [0; 34];
    registers[1] = 1;
    Snap {
        n: 1,
        pc: 0x0040_0004,
        registers,
    }
}

fn after_three() -> Snap
    ensures n { result.n ≡ 3 }
    ensures snap { IsSnapshotOf ⟦<ThreeAdds as OfProgram>⟧.program result }
{
    let mut registers = [0; 34];
    registers[1] = 1;
    registers[2] = 2;
    registers[3] = 3;
    Snap {
        n: 3,
        pc: 0x0040_000c,
        registers,
    }
}

#[test]
fn snapper_takes_what_its_mark_names(rt: HostRuntime) -> Result<(), Fail> {
    let (mut publisher, mut snapper) = Publisher::<ThreeAdds>::new(rt.alloc(), 1)?;
    let first = snapper.take();
    let mark = publisher.publish(&rt, after_three());
    if let Ok(mark) = &mark {
        snapper.learn(mark);
    }
    let second = snapper.take();
    let third = snapper.take();
    let last = publisher.end(&rt);
    let gone = snapper.take();
    same(&rt, &first?, &Snap::opening());
    same(&rt, &mark?, &Mark { n: 3 });
    same(&rt, &(second?, third?), &(after_three(), after_three()));
    same(&rt, &last, &after_three());
    same(&rt, &gone, &Err(Gone));
    Ok(())
}

#[test]
fn nothing_older_than_a_mark_is_taken(rt: HostRuntime) -> Result<(), Fail> {
    let (mut publisher, mut snapper) = Publisher::<ThreeAdds>::new(rt.alloc(), 1)?;
    let one = publisher.publish(&rt, after_one());
    snapper.learn(&Mark { n: 2 });
    let older = snapper.take();
    let three = publisher.publish(&rt, after_three());
    let newer = snapper.take();
    publisher.end(&rt);
    same(&rt, &(one?, three?), &(Mark { n: 1 }, Mark { n: 3 }));
    same(&rt, &older, &Err(Gone));
    same(&rt, &newer?, &after_three());
    Ok(())
}

fn tries(snapper: &mut Snapper<ThreeAdds>, most: u32) -> Option<Snapper<ThreeAdds>> {
    for _ in 0..most {
        if let Ok(other) = snapper.another() {
            return Some(other);
        }
    }
    None
}

#[test]
fn second_place_takes_a_second_snapper(rt: HostRuntime) -> Result<(), Fail> {
    let (mut publisher, mut first) = Publisher::<ThreeAdds>::new(rt.alloc(), 2)?;
    let shown = publisher.publish(&rt, after_one());
    let mut second = tries(&mut first, 1000);
    let third = first.another().is_err();
    let taken = second.as_mut().map(|snapper| snapper.take());
    drop(second);
    if let Ok(mark) = &shown {
        first.learn(mark);
    }
    let own = first.take();
    let again = tries(&mut first, 1000).is_some();
    publisher.end(&rt);
    same(&rt, &shown?, &Mark { n: 1 });
    same(&rt, &own?, &after_one());
    assert!(rt; third && again);
    same(&rt, &taken, &Some(Ok(after_one())));
    Ok(())
}

#[test]
fn one_place_takes_no_second_snapper(rt: HostRuntime) -> Result<(), Fail> {
    let (publisher, mut first) = Publisher::<ThreeAdds>::new(rt.alloc(), 1)?;
    let is_refused = first.another().is_err();
    let taken = first.take();
    publisher.end(&rt);
    assert!(rt; is_refused);
    same(&rt, &taken?, &Snap::opening());
    Ok(())
}

// Each snapshot is one of those that are published. (That none is older than the one before is in the contract.)
fn takes(mut snapper: Snapper<ThreeAdds>, turns: u32) -> bool {
    for _ in 0..turns {
        let Ok(snap) = snapper.take() else {
            return false;
        };
        if !is_published(&snap) {
            return false;
        }
        yield_now();
    }
    true
}

fn is_published(snap: &Snap) -> bool {
    *snap == Snap::opening() || *snap == after_one() || *snap == after_three()
}

fn publishes_beside<'s, E: 's, R: Threads + Wait + Sync + 's>(
    rt: &'s R,
    scope: &Scope<'s, E>,
    alloc: Global,
) -> Result<bool, Memory> {
    let (mut publisher, snapper) = Publisher::<ThreeAdds>::new(alloc, 1)?;
    let Ok(taking) = scope.spawn(move || takes(snapper, 1000)) else {
        publisher.end(rt);
        return Ok(false);
    };
    let one = publisher.publish(rt, after_one());
    yield_now();
    let three = publisher.publish(rt, after_three());
    let right = taking.join(rt);
    publisher.end(rt);
    one?;
    three?;
    Ok(right)
}

fn in_threads<'x, R: Threads + Wait + Sync>(rt: &'x R, alloc: Global) -> Result<bool, Memory> {
    thread::scope(
        thread::scope_env(),
        rt,
        move |scope| publishes_beside(rt, scope, alloc),
    )
}

#[test]
fn one_thread_takes_while_another_publishes(rt: HostRuntime) -> Result<(), Fail> {
    let right = in_threads(&rt, rt.alloc())?;
    assert!(rt; right);
    Ok(())
}
