//! Backs.
ghost use Rattle.std.specs.Prelude.{◌≡◌, IfOk, IfErr};
ghost use Rattle.inorder.specs.Machine.{start};
ghost use Rattle.back.specs.Backs.{HasRetiredNothing, IsNewBack, back_state};
ghost use Rattle.snapshots.specs.Snapshots.{opening};

use inorder::Committed;
use instructions::{Config, Memory, Program, Stop};
use snapshots::{OfProgram, Publisher, Snapper};
use station::{BackSeat, Core, a_number_is_of_its_part, what_is_seen_is_legal};
use std::alloc::Global;
use std::marker::Model;

/// The commit side: the back's seat, the memory and the committed registers, pc and count of instructions, and
/// the publisher of snapshots. To a contract it is what its seat has seen, and how it ended. It is no `Drop`:
/// the one that holds it ends it.
pub struct Back<J: OfProgram> {
    pub(crate) seat: BackSeat,
    pub(crate) committed: Committed,
    // the value for LO of a first half that has retired, until its second half does
    pub(crate) low: Option<u32>,
    // the station of the oldest live tenant, or of the next one where nobody is live
    pub(crate) head: usize,
    pub(crate) ended: Option<Stop>,
    pub(crate) publisher: Publisher<J>,
}

impl<J: OfProgram> Model for Back<J> {
    ghost use Rattle.back.specs.Backs.{TheBack, back_of};
    ghost use Rattle.back.specs.Kept.{BackIsKept};

    ghost Value = { TheBack };

    ghost view = { λ b. back_of b.seat b.ended b.publisher };

    ghost invariant = { λ b.
        BackIsKept J.program b.seat b.committed b.low b.head b.ended b.publisher };
}

// The parts of a back that need memory. The publisher comes last, since it could not be given up without Wait.
fn parts<J: OfProgram>(
    alloc: Global,
    program: &Program,
    config: &Config,
) -> Result<(Committed, Publisher<J>, Snapper<J>), Memory>
    ensures committed { IfOk result (λ made. made.0 ≡ start program.now) }
    ensures publisher { IfOk result (λ made. made.1 ≡ opening) }
    ensures snapper { IfOk result (λ made. made.2 ≡ 0) }
{
    let committed = Committed::new(alloc, program)?;
    let (publisher, snapper) = Publisher::new(alloc, config.places())?;
    Ok((committed, publisher, snapper))
}

impl<J: OfProgram> Back<J> {
    /// A back at the start of a program, and the first snapper of what it shows. There can be as many snappers
    /// at once as the configuration has places. At a refusal the seat is given back.
    pub fn new(
        alloc: Global,
        core: &Core,
        seat: BackSeat,
        program: &Program,
        config: &Config,
    ) -> Result<(Back<J>, Snapper<J>), (Memory, BackSeat)>
        requires core { seat.core ≡ core.now }
        requires program { program.now ≡ core.now.program }
        requires named { program.now ≡ J.program }
        requires fresh { HasRetiredNothing seat }
        ensures ok { IfOk result (λ made. IsNewBack seat made.0) }
        ensures snapper { IfOk result (λ made. made.1 ≡ 0) }
        ensures err { IfErr result (λ refused. refused.1 ≡ seat) }
    {
        match parts::<J>(alloc, program, config) {
            Ok((committed, publisher, snapper)) => {
                what_is_seen_is_legal(&seat);
                a_number_is_of_its_part(&seat);
                let back = Back {
                    seat,
                    committed,
                    low: None,
                    head: 0,
                    ended: None,
                    publisher,
                };
                Ok((back, snapper))
            }
            Err(memory) => Err((memory, seat)),
        }
    }

    /// How many instructions it has committed.
    pub fn n(&self) -> u64
        ensures { result ≡ (back_state self.now).count }
    {
        self.committed.count()
    }

    /// The stations to which the load that `refresh` completed last took its value: bit s is set if one or both sources
    /// of station s got the value. No bit is set if that load was squashed meanwhile. A new back has the bits of its seat.
    pub fn woken(&self) -> u32
        ensures { result ≡ self.now.woken }
    {
        self.seat.woken()
    }

    /// The code that `commit` answered, once it has answered `Ended`.
    pub fn ended(&self) -> Option<Stop>
        ensures { result ≡ self.now.ended }
    {
        self.ended
    }
}
