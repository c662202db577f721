//! What the back's seat sees and is told.
ghost use Rattle.std.specs.Prelude.{◌≡◌, ◌<◌};
ghost use Rattle.instructions.specs.Histories.{StartsWith};
ghost use Rattle.station.specs.Looking.{SeesInfo, SeesLink, SeesOperand, SeesStation};
ghost use Rattle.station.specs.Seats.{IsSameSeat};
ghost use Rattle.back.specs.Backs.{IsSameBack, SeesMore};

use crate::backs::Back;
use instructions::Half;
use snapshots::OfProgram;
use station::{Core, LinkWord, Part, SeatOf, Seen, Source, SourceState, StationState};

impl<J: OfProgram> Back<J> {
    /// The word of a station.
    pub fn look(&mut self, core: &Core, station: usize) -> Seen<StationState>
        requires core { self.old.core ≡ core.now }
        requires station { station < core.now.sizes.ring }
        ensures kept { IsSameBack self.old self.new }
        ensures woken { self.new.woken ≡ self.old.woken }
        ensures history { SeesMore core.now self.old.by self.old.seen self.new.seen }
        ensures reply { SeesStation core.now.program core.now.sizes self.new.seen station result }
    {
        core.look(&mut self.seat, station)
    }

    /// The info word of a station: the index of an instruction and a half of that, and the predicted next pc.
    pub fn info(&mut self, core: &Core, station: usize) -> (u32, Half, u32)
        requires core { self.old.core ≡ core.now }
        requires station { station < core.now.sizes.ring }
        ensures kept { IsSameBack self.old self.new }
        ensures woken { self.new.woken ≡ self.old.woken }
        ensures history { SeesMore core.now self.old.by self.old.seen self.new.seen }
        ensures reply { SeesInfo core.now.program core.now.sizes
            self.new.seen station result.0 result.1 result.2 }
    {
        core.info(&mut self.seat, station)
    }

    /// The operand word of source k of a station.
    pub fn operand(&mut self, core: &Core, station: usize, k: Source) -> Seen<SourceState>
        requires core { self.old.core ≡ core.now }
        requires station { station < core.now.sizes.ring }
        ensures kept { IsSameBack self.old self.new }
        ensures woken { self.new.woken ≡ self.old.woken }
        ensures history { SeesMore core.now self.old.by self.old.seen self.new.seen }
        ensures reply { SeesOperand core.now.program core.now.sizes self.new.seen station k result }
    {
        core.operand(&mut self.seat, station, k)
    }

    /// The link word from a station to source k of another one: the tags of the tenant whose value is awaited and
    /// of the one that waits.
    pub fn link(
        &mut self,
        core: &Core,
        producer: usize,
        consumer: usize,
        k: Source,
    ) -> Option<LinkWord>
        requires core { self.old.core ≡ core.now }
        requires producer { producer < core.now.sizes.ring }
        requires consumer { consumer < core.now.sizes.ring }
        ensures kept { IsSameBack self.old self.new }
        ensures woken { self.new.woken ≡ self.old.woken }
        ensures history { SeesMore core.now self.old.by self.old.seen self.new.seen }
        ensures reply { SeesLink core.now.program core.now.sizes self.new.seen producer consumer
            k result }
    {
        core.link(&mut self.seat, producer, consumer, k)
    }

    /// Tells the back and another caller what the other has seen. The back can meet any seat.
    pub fn meet<P: Part>(&mut self, core: &Core, other: &mut SeatOf<P>)
        requires core { self.old.core ≡ core.now }
        requires other { other.old.core ≡ core.now }
        ensures kept { IsSameBack self.old self.new }
        ensures woken { self.new.woken ≡ self.old.woken }
        ensures history { SeesMore core.now self.old.by self.old.seen self.new.seen }
        ensures told { StartsWith self.new.seen other.old.seen }
        ensures other_kept { IsSameSeat other.old other.new }
        ensures other_spare { other.new.spare ≡ other.old.spare }
        ensures other_woken { other.new.woken ≡ other.old.woken }
        ensures other_history { SeesMore core.now other.old.by other.old.seen other.new.seen }
        ensures other_told { StartsWith other.new.seen self.new.seen }
    {
        core.meet(&mut self.seat, other);
    }
}
