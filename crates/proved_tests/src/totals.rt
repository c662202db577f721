//! Additions in threads.
ghost use Rattle.std.specs.Prelude.{◌≡◌, []};
ghost use denote.Param.Send.{IsSync};
ghost use Rattle.counts.specs.Shares.{all_parts, joined_of, plus, share_of};
ghost use Rattle.counts.specs.declared.tally.Total.TheVariants.{Lets};

use crate::same::same;
use counts::{CountSeat, Counts, Tally, Total};
use std::process::Abort;
use std::test::*;
use std::thread::{Threads, join};

// Ten thousand additions of 1.
fn count_up(counts: &Counts, mut seat: CountSeat) -> CountSeat
    requires { seat.of ≡ counts.now }
    ensures of { result.of ≡ counts.now }
    ensures share { share_of Lets result.shares ≡ plus 10000 (share_of Lets seat.shares) }
{
    for _ in 0..10_000_u64 {
        counts.add(&mut seat, Total::Lets, 1);
    }
    seat
}

// Two threads add at once, and then their seats are one.
fn in_two<R: Threads + Sync>(rt: &R, counts: &Counts, one: CountSeat, other: CountSeat) -> CountSeat
    requires one { one.of ≡ counts.now }
    requires other { other.of ≡ counts.now }
    ensures of { result.of ≡ counts.now }
    ensures share { share_of Lets result.shares ≡ joined_of
        (plus 10000 (share_of Lets one.shares)) (plus 10000 (share_of Lets other.shares)) }
{
    let (one, other) = join(
        rt,
        || -> CountSeat
            requires { one.of ≡ counts.now }
            ensures of { result.of ≡ counts.entry.now }
            ensures share { share_of Lets result.shares ≡ plus 10000 (share_of Lets one.shares) }
        { count_up(counts, one) },
        || -> CountSeat
            requires { other.of ≡ counts.now }
            ensures of { result.of ≡ counts.entry.now }
            ensures share { share_of Lets result.shares ≡ plus 10000 (share_of Lets other.shares) }
        { count_up(counts, other) },
    );
    counts.join(one, other)
}

// Four threads add at once: what is read when they have ended.
fn in_four<R: Threads + Sync>(rt: &R, counts: &Counts, seat: CountSeat) -> Tally
    requires { seat ≡ record { of = counts.now; shares = all_parts; seen = [] } }
    ensures { result.lets ≡ 40000 }
{
    let (left, right) = counts.split(seat);
    let (a, b) = counts.split(left);
    let (c, d) = counts.split(right);
    let (left, right) = join(
        rt,
        || -> CountSeat
            requires { (IsSync R.row) × (a.of ≡ counts.now) × (b.of ≡ counts.now) }
            ensures of { result.of ≡ counts.entry.now }
            ensures share { share_of Lets result.shares ≡ joined_of
                (plus 10000 (share_of Lets a.shares)) (plus 10000 (share_of Lets b.shares)) }
        { in_two(rt, counts, a, b) },
        || -> CountSeat
            requires { (IsSync R.row) × (c.of ≡ counts.now) × (d.of ≡ counts.now) }
            ensures of { result.of ≡ counts.entry.now }
            ensures share { share_of Lets result.shares ≡ joined_of
                (plus 10000 (share_of Lets c.shares)) (plus 10000 (share_of Lets d.shares)) }
        { in_two(rt, counts, c, d) },
    );
    let mut all = counts.join(left, right);
    counts.read(&mut all)
}

#[test]
fn four_threads_lose_no_addition(rt: HostRuntime) -> Result<(), Fail> {
    let (counts, seat) = Counts::make(rt.alloc())?;
    let tally = in_four(&rt, &counts, seat);
    let expected = Tally {
        lets: 40_000,
        claims: 0,
        finishes: 0,
        stale: 0,
        loads: 0,
        retires: 0,
        squashes: 0,
        mends: 0,
        hints: 0,
        renewals: 0,
    };
    same(&rt, &tally, &expected);
    Ok(())
}

#[test]
fn each_total_is_its_own(rt: HostRuntime) -> Result<(), Fail> {
    let (counts, mut seat) = Counts::make(rt.alloc())?;
    counts.add(&mut seat, Total::Lets, 1);
    counts.add(&mut seat, Total::Claims, 2);
    counts.add(&mut seat, Total::Finishes, 3);
    counts.add(&mut seat, Total::Stale, 4);
    counts.add(&mut seat, Total::Loads, 5);
    counts.add(&mut seat, Total::Retires, 6);
    counts.add(&mut seat, Total::Squashes, 7);
    counts.add(&mut seat, Total::Mends, u64::MAX);
    counts.add(&mut seat, Total::Mends, 9);
    counts.add(&mut seat, Total::Hints, 10);
    counts.add(&mut seat, Total::Renewals, 11);
    let expected = Tally {
        lets: 1,
        claims: 2,
        finishes: 3,
        stale: 4,
        loads: 5,
        retires: 6,
        squashes: 7,
        mends: 8,
        hints: 10,
        renewals: 11,
    };
    same(&rt, &counts.read(&mut seat), &expected);
    Ok(())
}

#[test]
fn workers_count_all_but_what_the_first_keeps(rt: HostRuntime) -> Result<(), Fail> {
    let (counts, seat) = Counts::make(rt.alloc())?;
    let (mut seat, worker) = counts.split_worker(seat);
    let (mut one, mut other) = counts.split_workers(worker);
    counts.add(&mut seat, Total::Retires, 3);
    counts.add(&mut seat, Total::Renewals, 2);
    counts.add_work(&mut one, Total::Claims, 1);
    counts.add_work(&mut other, Total::Claims, 1);
    let tally = counts.read(&mut seat);
    same(&rt, &tally.retires, &3);
    same(&rt, &tally.renewals, &2);
    same(&rt, &tally.claims, &2);
    Ok(())
}
