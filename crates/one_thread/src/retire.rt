//! Retirement.
ghost use Rattle.std.specs.Prelude.{◌≡◌, ◌<◌, ◌≤◌, ◌-◌, ◌^◌, None, Some, length, slice_get, slice_set};
ghost use Rattle.one_thread.specs.Changes.{ahead_of};
ghost use Rattle.one_thread.specs.Leaves.{HasEnded, OldestHasEnded, RetiresTo, with_station};

use crate::bench::Turn;
use crate::leaver::told_of;
use crate::pipeline::Pipeline;
use crate::source::source;
use crate::station::{Stage, Station};
use inorder::wrapped;
use instructions::{Leaver, Stop};

/// A tenant leaves a station of which no predictor is to be told yet.
#[inline(always)]
pub fn leave_untold(leavers: &mut [Option<Leaver>; 32], station: usize, told: Option<Leaver>)
    requires inside { station < length leavers.old }
    requires untold { slice_get leavers.old station ≡ Some None }
    ensures { leavers.new ≡ slice_set leavers.old station told }
{
    match told {
        None => {}
        Some(_) => leavers[station] = told,
    }
}

impl<'a> Pipeline<'a> {
    // What the oldest tenant has made or stored is committed, and what has waited for it.
    #[inline(always)]
    fn commits(&mut self, oldest: &Station)
        requires count { self.old.committed.count < 2 ^ 64 - 1 }
        requires can { HasEnded (length self.old.committed.memory)
            oldest.now.instr oldest.now.stage }
        ensures { self.new ≡ record self.old {
          committed = with_station oldest.now (ahead_of self.old);
          low = None;
        } }
    {
        self.committed.write_low(self.low);
        self.low = None;
        if let Stage::Addr(address) = oldest.stage {
            let second = oldest.instr.second();
            let content = source(&self.window, &self.ahead(), 0, second).unwrap_or(0);
            let width = oldest.instr.op().width() as usize;
            self.committed.store_at(address as usize, width, content);
        }
        let made = oldest.made.unwrap_or(0);
        self.committed
            .advance(oldest.destination, made, oldest.next);
    }

    /// Retires the oldest tenant. A stop ends the unit, and what a first half has made waits.
    #[inline(always)]
    pub(crate) fn retires(&mut self) -> Turn
        requires oldest { self.old.oldest < self.old.ring }
        requires most { self.old.ring ≤ 32 }
        requires leavers { length self.old.leavers ≡ 32 }
        requires count { self.old.committed.count < 2 ^ 64 - 1 }
        requires can { OldestHasEnded (length self.old.committed.memory)
            (slice_get self.old.window 0) }
        ensures { RetiresTo self.old (slice_get self.old.window 0) result self.new }
    {
        let Some(oldest) = self.window.at(0) else {
            return Turn::Over(Stop::BadPc);
        };
        let station = self.oldest;
        self.window.shift();
        self.oldest = wrapped(station + 1, self.ring);
        if let Stage::Stops(code) = oldest.stage {
            self.over = Some(code);
            return Turn::Over(code);
        }
        self.leavers[station] = told_of(&oldest);
        if oldest.instr.is_first_half(oldest.half) {
            self.low = Some(oldest.made.unwrap_or(0));
            return Turn::Halved;
        }
        self.commits(&oldest);
        Turn::Retired
    }
}
