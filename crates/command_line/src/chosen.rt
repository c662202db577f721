//! The predictor that a command line asks for.
ghost use Rattle.std.specs.Prelude.{◌≡◌, replicate};
ghost use Rattle.command_line.specs.Predictors.{IsChosen};

use crate::BranchPredictor;
use instructions::{Bimod, Instr, NotTaken, Predictor, Taken};

/// One of the predictors. The counters serve the bimodal one, and are trained in any case.
#[derive(Clone, Copy, Drop)]
pub struct Chosen {
    which: BranchPredictor,
    bimod: Bimod,
}

/// The predictor, which was told of no branch.
pub fn choose(which: BranchPredictor) -> Chosen
    ensures { IsChosen which result }
{
    Chosen {
        which,
        bimod: Bimod::new(),
    }
}

impl Predictor for Chosen {
    ghost use Rattle.command_line.specs.Predictors.{LearnsAs, PredictsAs};

    ghost Predicts = { PredictsAs };

    ghost Learns = { LearnsAs };

    fn predict(&mut self, pc: u32, instr: &Instr) -> u32 {
        match self.which {
            BranchPredictor::NotTaken => NotTaken.predict(pc, instr),
            BranchPredictor::Taken => Taken.predict(pc, instr),
            BranchPredictor::Bimod => self.bimod.predict(pc, instr),
        }
    }

    fn told(&mut self, pc: u32, next: u32) {
        self.bimod.told(pc, next);
    }
}
