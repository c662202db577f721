//! What the publisher and the snappers keep: what is published is a snapshot of the program, and it
//! never goes back.
ghost use Rattle.snapshots.specs.Rules.{NobodyIsAhead, Told};

use crate::snap::Snap;
use crossbeam_utils::rule::{Outcome, Protocol};
use left_right::reader::Reader;
use left_right::writer::Writer;
use std::marker::{Brand, PhantomData};

/// The program whose states are published. It has no value at run time: each call with a `Brand`
/// picks it, in the proof.
pub trait OfProgram {
    ghost use Rattle.instructions.specs.Programs.{Program};

    ghost program: { Program };
}

impl OfProgram for Brand {
    ghost use Rattle.std.specs.Prelude.{[]};

    ghost program = { record { code = []; bytes = [] } };
}

/// A view is the greatest n that was seen.
pub struct InOrder<J> {
    of: PhantomData<J>,
}

impl<J: OfProgram> Protocol<Snap, u64> for InOrder<J> {
    ghost holds = { NobodyIsAhead J.program };

    ghost first = { 0 };
}

/// The step of a snapper that takes, and of the publisher that publishes.
pub struct Sees<J> {
    of: PhantomData<J>,
}

impl<J: OfProgram> Outcome<Snap, u64> for Sees<J> {
    ghost then = { Told J.program };
}

pub type SnapReader<J> = Reader<Snap, u64, InOrder<J>>;

pub type SnapWriter<J> = Writer<Snap, Snap, u64, InOrder<J>>;
