//! The gate of a run that is told or shaken.
ghost use Rattle.std.specs.Prelude.{◌≡◌, IfOk};

use crate::shaker::Shaker;
use crate::teller::Teller;
use command_line::Asked;
use pool::{Gate, Tally};
use snapshots::Snap;
use std::alloc::AllocError;
use std::marker::Model;

/// Holds units where a shaker does, and tells each tally where there is a teller.
#[derive(Drop)]
pub struct ProgressWatcher<'a> {
    teller: Option<Teller<'a>>,
    shaker: Option<Shaker>,
}

impl<'a> Model for ProgressWatcher<'a> {
    ghost use Rattle.std.specs.Prelude.{ℕ, Option};

    // the seed by which it shakes, if it does
    ghost Value = { Option ℕ };

    ghost view = { λ w. w.shaker };
}

impl Gate for ProgressWatcher<'_> {
    fn held(&self, unit: u32, _station: u32) -> bool {
        match &self.shaker {
            Some(shaker) => shaker.holds(unit),
            None => false,
        }
    }

    fn seen(&self, _place: u32, _snap: &Snap) {}

    fn counted(&self, tally: &Tally) {
        if let Some(teller) = &self.teller {
            teller.tell(tally);
        }
    }
}

/// Tells and shakes a run as is asked for.
pub fn watch<'a>(rt: &'a HostRuntime, asked: &Asked<'_>) -> Result<ProgressWatcher<'a>, AllocError>
    ensures { IfOk result (λ w. w ≡ asked.now.shake) }
{
    let shaker = match asked.shake {
        Some(seed) => Some(Shaker::new(rt.alloc(), seed, asked.config.units())?),
        None => None,
    };
    let teller = if asked.progress {
        Some(Teller::new(rt))
    } else {
        None
    };
    Ok(ProgressWatcher { teller, shaker })
}
