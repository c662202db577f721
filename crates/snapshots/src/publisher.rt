//! The publisher of snapshots.
ghost use Rattle.std.specs.Prelude.{◌≡◌, ◌<◌, ◌≤◌, [], drop, IfOk, OnErr, OnOk};
ghost use Rattle.snapshots.specs.Snapshots.{IsSnapshotOf, opening};

use crate::mark::Mark;
use crate::rule::{OfProgram, Sees, SnapWriter};
use crate::snap::Snap;
use crate::snapper::Snapper;
use core::mem::replace_with;
use instructions::Memory;
use left_right::writer::Writer;
use std::alloc::{AllocError, Global};
use std::marker::Model;
use std::sync::Wait;

/// Publishes snapshots of one program. To a contract it is the snapshot that was published last.
/// A publisher is no `Drop`: the one that holds it ends it.
pub struct Publisher<J: OfProgram> {
    writer: SnapWriter<J>,
}

impl<J: OfProgram> Model for Publisher<J> {
    ghost use Rattle.std.specs.Prelude.{◌≡◌, [], drop};
    ghost use Rattle.snapshots.specs.declared.snap.Snap.{Snap};

    ghost Value = { Snap };

    ghost view = { λ p. p.writer.desk.shown.value };

    // nothing waits to be published
    ghost invariant = { λ p. drop p.writer.behind p.writer.log.items ≡ [] };
}

// At an error nothing is published.
fn publish<J: OfProgram, R: Wait>(
    mut writer: SnapWriter<J>,
    job: (&R, Snap),
) -> (SnapWriter<J>, Result<(), AllocError>)
    requires snap { IsSnapshotOf J.program job.1 }
    requires later { writer.desk.shown.value.n ≤ job.1.n }
    requires empty { drop writer.behind writer.log.items ≡ [] }
    ensures ok { OnOk result.1 (result.0.desk.shown.value ≡ job.entry.1) }
    ensures err { OnErr result.1 (result.0.desk.shown.value ≡ writer.desk.shown.value) }
    ensures empty { drop result.0.behind result.0.log.items ≡ [] }
{
    let (wait, snap) = job;
    match writer.append(snap) {
        Ok(()) => writer.publish_as::<Sees<J>, R>(wait),
        Err(_) => (writer, Err(AllocError)),
    }
}

impl<J: OfProgram> Publisher<J> {
    /// A publisher that shows the opening state, and the first snapper. There can be as many snappers at once as there
    /// are places. A refusal is for memory, and leaves nothing behind.
    pub fn new(alloc: Global, places: u32) -> Result<(Publisher<J>, Snapper<J>), Memory>
        requires places { (0 < places) × (places ≤ 64) }
        ensures published { IfOk result (λ made. made.0 ≡ opening) }
        ensures seen { IfOk result (λ made. made.1 ≡ 0) }
    {
        let first = Snap::opening();
        let writer: SnapWriter<J> = Writer::new(alloc, first, first, places as usize)?;
        let snapper = Snapper::of(writer.factory().reader().ok());
        Ok((Publisher { writer }, snapper))
    }

    /// Publishes a snapshot by one step, so that a snapper takes this one whole or an earlier one.
    /// The call waits for the snappers that are reading. At an error nothing is published.
    pub fn publish<R: Wait>(&mut self, wait: &R, snap: Snap) -> Result<Mark, Memory>
        requires snap { IsSnapshotOf J.program snap }
        requires later { self.old.n ≤ snap.n }
        ensures ok { OnOk result (self.new ≡ snap) }
        ensures mark { IfOk result (λ mark. mark.n ≡ snap.n) }
        ensures err { OnErr result (self.new ≡ self.old) }
    {
        replace_with(&mut self.writer, (wait, snap), publish::<J, R>)?;
        Ok(Mark { n: snap.n })
    }

    /// Gives back the snapshot that was published last, when no snapper is reading it. From then on
    /// snappers are answered `Gone`.
    pub fn end<R: Wait>(self, wait: &R) -> Snap
        ensures { result ≡ self }
    {
        let Publisher { writer } = self;
        *writer.take(wait)
    }
}
