//! A miss in a flow: what was predicted is let after it and squashed, and it is mended.
ghost use Rattle.std.specs.Prelude.{◌≡◌, ◌≢◌, ◌-◌, suc, length, slice_get, Some};
ghost use Rattle.streaming.specs.Astray.{HasGoneAstray, AwaitsMending, IsUpcoming};
ghost use Rattle.streaming.specs.Flow.{Flows, in_order};
ghost use Rattle.streaming.specs.declared.completed_ring.Completed.{Completed};

use crate::completing::Done;
use crate::flow::Flow;
use inorder::wrapped;
use instructions::Predictor;
use one_thread::{Pipeline, access, fetch_at, fetch_known, guess, take_leaver};

// Lets what is predicted after the next instruction, as long as anything can be let. None of it is claimed before the
// next instruction has squashed it, so a predictor alone notices it: it is told who has left each station, and asked.
fn let_astray<P: Predictor>(unit: &mut Pipeline<'_>, predictor: &mut P, flow: &Flow, predicted: u32)
    requires { IsUpcoming unit.old flow.now predicted }
    ensures astray { HasGoneAstray unit.new flow.now predicted }
    ensures rest { unit.new ≡ record unit.old { leavers = unit.new.leavers } }
{
    let instr = fetch_known(unit.code.as_slice(), flow.future.pc);
    let mut pc = predicted;
    let mut half = instr.half_behind(flow.half);
    let mut accesses = flow.accesses + access(instr);
    for count in flow.ring.len() + 1..unit.ring {
        let Some(next) = fetch_at(unit.code.as_slice(), pc) else {
            return;
        };
        if next.is_access() && unit.queue <= accesses {
            return;
        }
        let station = wrapped(flow.ring.station() + count, unit.ring);
        let left = take_leaver(&mut unit.leavers, station);
        pc = guess(predictor, left, next, half, pc);
        half = next.half_behind(half);
        accesses += access(next);
    }
}

/// The next instruction was let and is a miss: it completes and is mended, once what was predicted after it was let
/// and squashed.
#[cold]
#[inline(never)]
pub fn mend<P: Predictor>(
    unit: &mut Pipeline<'_>,
    predictor: &mut P,
    flow: &mut Flow,
    predicted: u32,
    done: Done,
    content: u32,
)
    requires { AwaitsMending unit.old flow.old predicted done content }
    ensures flows { Flows unit.new flow.new }
    ensures longer { length flow.new.ring.completed ≡ suc (length flow.old.ring.completed) }
    ensures order { in_order unit.new flow.new ≡ in_order unit.new flow.old }
    ensures rest { unit.new ≡ record unit.old { leavers = unit.new.leavers } }
{
    let_astray(unit, predictor, flow, predicted);
    let instr = fetch_known(unit.code.as_slice(), flow.future.pc);
    let half = flow.half;
    let completed = flow.completed(instr, None, half, predicted, done, content);
    let station = flow.ring.station_at(flow.ring.len());
    flow.joins(station, instr, None, completed, content);
}
