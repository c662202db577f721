//! What a session reads: words, the create vector, and where the path goes on. Each call stands between two meetings with
//! the seat that has seen all.
use super::Session;
use crate::replies::{
    Head, Info, NextFetch, Operand, Producer, Row, head_with, is_free, producer_named,
};
use crate::units::{Claimed, holder};
use back::OfProgram;
use front::{Made, Turn};
use instructions::{Predictor, Reg};
use station::{LinkWord, Seen, Source, SourceState, StationState, what_is_seen_is_legal};

impl<'a, P: Predictor + Drop, J: OfProgram> Session<'a, P, J> {
    ghost use Rattle.std.specs.Prelude.{◌<◌};
    ghost use Rattle.session.specs.Accounts.{IsAwaited, IsLinkTold, IsOfLet, IsOfOperand, IsOperandTold, IsProducerSeen};
    ghost use Rattle.session.specs.Replies.{IsCreatorNow, IsInfoSeen, IsLinkSeen, IsLook, IsOperandSeen};
    ghost use Rattle.session.specs.Rows.{IsAhead, IsHeadSeen, IsHolder, IsOldestTold, IsRingTold, IsRowSeen};
    ghost use Rattle.session.specs.Sessions.{OnlyLooked};

    // The word of a station.
    pub(super) fn read_station(&mut self, station: usize) -> Seen<StationState>
        requires { station < self.old.core.sizes.ring }
        ensures stays { OnlyLooked self.old self.new }
        ensures reply { IsLook self.old.core self.old.seen self.new.seen station result }
    {
        let (core, all, front) = (&self.core, &mut self.all, &mut self.front);
        front.meet(core, all);
        let answer = front.look(core, station);
        front.meet(core, all);
        answer
    }

    // The creator of a register, as the front knows it, or the register's value.
    pub(super) fn read_creator(&mut self, register: Reg) -> Made
        ensures stays { OnlyLooked self.old self.new }
        ensures reply { IsCreatorNow self.old.core self.old.seen self.new.seen
            self.old.trained_upto register result }
    {
        let (core, all, front) = (&self.core, &mut self.all, &mut self.front);
        front.meet(core, all);
        front.creator(register)
    }

    // Where the path goes on, as the front knows it.
    fn read_path(&mut self) -> NextFetch
        ensures stays { OnlyLooked self.old self.new }
        ensures small { result.station < self.old.core.sizes.ring }
        ensures reply { IsAhead self.old.core self.old.seen self.new.seen result }
    {
        let (core, all, front) = (&self.core, &mut self.all, &mut self.front);
        front.meet(core, all);
        let _ring = core.ring();
        let station = front.next_station(core);
        let pc = front.next_pc();
        NextFetch { station, pc }
    }

    // The info word of a station.
    pub(super) fn read_info(&mut self, station: usize) -> Info
        requires { station < self.old.core.sizes.ring }
        ensures stays { OnlyLooked self.old self.new }
        ensures reply { IsInfoSeen self.old.core self.old.seen self.new.seen station result }
    {
        let (core, all, back) = (&self.core, &mut self.all, &mut self.back);
        back.meet(core, all);
        let (index, half, predicted) = back.info(core, station);
        back.meet(core, all);
        Info {
            index,
            half,
            predicted,
        }
    }

    // The operand word of a source of a station.
    fn read_operand(&mut self, station: usize, k: Source) -> Seen<SourceState>
        requires { station < self.old.core.sizes.ring }
        ensures stays { OnlyLooked self.old self.new }
        ensures reply { IsOperandSeen self.old.core self.old.seen self.new.seen station k result }
    {
        let (core, all, back) = (&self.core, &mut self.all, &mut self.back);
        back.meet(core, all);
        let answer = back.operand(core, station, k);
        back.meet(core, all);
        answer
    }

    // The link word from a station to source k of another one.
    fn read_link(&mut self, producer: usize, consumer: usize, k: Source) -> Option<LinkWord>
        requires producer { producer < self.old.core.sizes.ring }
        requires consumer { consumer < self.old.core.sizes.ring }
        ensures stays { OnlyLooked self.old self.new }
        ensures reply { IsLinkSeen self.old.core self.old.seen
            self.new.seen producer consumer k result }
    {
        let (core, all, back) = (&self.core, &mut self.all, &mut self.back);
        back.meet(core, all);
        let answer = back.link(core, producer, consumer, k);
        back.meet(core, all);
        answer
    }

    // The tenant that source k of the tenant with this tag at a station has asked for its value, if a link word names one.
    fn producer(&mut self, station: usize, tag: u32, k: Source) -> Option<Producer>
        requires { station < self.old.core.sizes.ring }
        ensures stays { OnlyLooked self.old self.new }
        ensures reply { IsProducerSeen self.old.core self.old.seen
            self.new.seen station tag k result }
    {
        what_is_seen_is_legal(&self.all);
        for at in 0..self.core.ring() {
            let seen = self.read_link(at, station, k);
            match producer_named(seen, at, tag) {
                Some(from) => return Some(from),
                None => {}
            }
        }
        None
    }

    // The producer of an operand, if it waits.
    fn producer_of(
        &mut self,
        station: usize,
        tag: u32,
        k: Source,
        state: SourceState,
    ) -> Option<Producer>
        requires { station < self.old.core.sizes.ring }
        ensures stays { OnlyLooked self.old self.new }
        ensures reply { IsOfOperand self.old.core self.old.seen
            self.new.seen station tag k state result }
    {
        what_is_seen_is_legal(&self.all);
        match state {
            SourceState::Wait => self.producer(station, tag, k),
            _ => None,
        }
    }

    // The operand word of a source of a station, the info word beside it, and the producer that it waits for.
    pub(super) fn whole_operand(&mut self, station: usize, k: Source) -> Operand
        requires { station < self.old.core.sizes.ring }
        ensures stays { OnlyLooked self.old self.new }
        ensures reply { IsOperandTold self.old.core self.old.seen self.new.seen station k result }
    {
        let info = self.read_info(station);
        let seen = self.read_operand(station, k);
        let from = self.producer_of(station, seen.tag, k, seen.state);
        Operand { info, seen, from }
    }

    // The producer that a source of a station waits for, by the link words.
    pub(super) fn linked(&mut self, station: usize, k: Source) -> Option<Producer>
        requires { station < self.old.core.sizes.ring }
        ensures stays { OnlyLooked self.old self.new }
        ensures reply { IsLinkTold self.old.core self.old.seen self.new.seen station k result }
    {
        let seen = self.read_operand(station, k);
        self.producer(station, seen.tag, k)
    }

    // The producer that a refused claim waits for.
    pub(super) fn awaited(&mut self, station: usize, answer: &Claimed) -> Option<Producer>
        requires { station < self.old.core.sizes.ring }
        ensures stays { OnlyLooked self.old self.new }
        ensures reply { IsAwaited self.old.core self.old.seen
            self.new.seen station answer.now result }
    {
        what_is_seen_is_legal(&self.all);
        match answer {
            Claimed::Waiting { tag, k } => self.producer(station, *tag, *k),
            _ => None,
        }
    }

    // The info word of the tenant that was let.
    pub(super) fn info_of_let(&mut self, turn: Turn) -> Option<Info>
        ensures stays { OnlyLooked self.old self.new }
        ensures reply { IsOfLet self.old.core self.old.seen self.new.seen turn result }
    {
        what_is_seen_is_legal(&self.all);
        match turn {
            Turn::Let { station, .. } => {
                if station < self.core.ring() {
                    Some(self.read_info(station))
                } else {
                    None
                }
            }
            _ => None,
        }
    }

    // The unit that holds a job of the tenant with this tag at a station.
    fn holder(&self, station: usize, tag: u32) -> Option<usize>
        ensures { IsHolder self.now.units station tag result }
    {
        holder(&self.units, station, tag)
    }

    // The words of a station, and who holds the job of its tenant.
    pub(super) fn row(&mut self, station: usize) -> Row
        requires { station < self.old.core.sizes.ring }
        ensures stays { OnlyLooked self.old self.new }
        ensures reply { IsRowSeen self.old.core self.old.seen
            self.new.seen self.old.units station result }
    {
        let seen = self.read_station(station);
        let unit = self.holder(station, seen.tag);
        let first = self.whole_operand(station, Source::First);
        let second = self.whole_operand(station, Source::Second);
        Row {
            seen,
            unit,
            first,
            second,
        }
    }

    // The oldest tenant's station, looked for from the next one's on, and how many stations are free.
    fn head(&mut self, tail: usize) -> Head
        requires { tail < self.old.core.sizes.ring }
        ensures stays { OnlyLooked self.old self.new }
        ensures reply { IsHeadSeen self.old.core self.old.seen self.new.seen tail result }
    {
        what_is_seen_is_legal(&self.all);
        let ring = self.core.ring();
        let mut head = Head {
            station: None,
            free: 0,
        };
        for at in 0..ring {
            let station = (tail + at) % ring;
            let seen = self.read_station(station);
            head = head_with(head, station, is_free(seen.state));
        }
        head
    }

    // The ring: its oldest tenant, and where the path goes on.
    pub(super) fn ends(&mut self) -> (Head, NextFetch)
        ensures stays { OnlyLooked self.old self.new }
        ensures reply { IsRingTold self.old.core self.old.seen self.new.seen result.0 result.1 }
    {
        let ahead = self.read_path();
        let head = self.head(ahead.station);
        (head, ahead)
    }

    // The words of the oldest tenant's station, if one is live.
    pub(super) fn oldest(&mut self) -> Option<(usize, Row)>
        ensures stays { OnlyLooked self.old self.new }
        ensures reply { IsOldestTold self.old.core self.old.seen
            self.new.seen self.old.units result }
    {
        let (head, _) = self.ends();
        match head.station {
            Some(station) if station < self.core.ring() => Some((station, self.row(station))),
            _ => None,
        }
    }
}
