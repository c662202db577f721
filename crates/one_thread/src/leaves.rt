//! What an operation tells of its instructions: where they go on, and what there is to do when they leave.
ghost use Rattle.std.specs.Prelude.{◌≡◌, false};
ghost use Rattle.instructions.specs.declared.instr.Instr.{Instr};
ghost use Rattle.one_thread.specs.Decoding.{goes_of as goes_in, leaves_by};
ghost use Rattle.one_thread.specs.Leavers.{LeavesUntold, LeavesAs, LeavesCounted};

use instructions::{Kind, Op};

/// Where an operation goes on.
#[derive(Clone, Copy)]
pub enum Goes {
    /// One value is computed, and the path goes on after it: nothing else is to be looked at.
    Plain,
    /// A load or store, after which the path goes on.
    Behind,
    /// The instruction names where it goes on: `j` and `jal`.
    To,
    /// A predictor is asked.
    Varies,
    /// The half tells.
    Pair,
}

/// What there is to do when an instruction leaves, beside counting it. As numbers the first two are what `accesses`
/// answers.
#[derive(Clone, Copy)]
pub enum Leaves {
    Nothing,
    /// One access less is live: a load leaves.
    Load,
    /// A predictor is told where it has gone on.
    Told,
    /// Perhaps more: the instruction tells.
    Any,
}

impl Leaves {
    /// How many accesses less are live then, where nothing else is to be done.
    pub fn accesses(self) -> usize
        ensures { (i : Instr) → LeavesAs self i → LeavesUntold self → LeavesCounted result false i }
    {
        self as usize
    }
}

/// Where an operation goes on, as far as it tells.
pub fn goes_of(op: Op) -> Goes
    ensures { result ≡ goes_in op }
{
    match op {
        Op::J | Op::Jal => Goes::To,
        Op::Jr | Op::Jalr => Goes::Varies,
        op if op.is_branch() => Goes::Varies,
        op if op.is_pair() => Goes::Pair,
        op if op.is_access() => Goes::Behind,
        _ => Goes::Plain,
    }
}

/// What there is to do when an instruction leaves.
pub fn leaves_of(goes: Goes, kind: Kind) -> Leaves
    ensures { result ≡ leaves_by goes kind }
{
    match (goes, kind) {
        (Goes::Plain | Goes::To, _) => Leaves::Nothing,
        (Goes::Behind, Kind::Loads) => Leaves::Load,
        (Goes::Varies, _) => Leaves::Told,
        _ => Leaves::Any,
    }
}
