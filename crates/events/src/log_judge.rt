//! A judge of a log, whose events wait until it is known what was predicted.
ghost use Rattle.std.specs.Prelude.{◌≡◌, IfErr, IfOk, OnOk, [], ◌∷◌, ◌++◌};
ghost use Rattle.events.specs.Items.{IsClosed, IsRefusedAmong, Judges, events_of};
ghost use Rattle.events.specs.Logs.{AreTaken};

use crate::event::Event;
use crate::item::Item;
use crate::judge::Judge;
use crate::verdict::{Refused, Verdict};
use std::alloc::{AllocError, Global};

// Judges events in turn, of which a let without a predicted next pc has this one.
fn judge_in_turn(
    judge: &mut Judge<'_>,
    items: &[Item],
    guess: Option<u32>,
) -> Result<Result<(), Refused>, AllocError>
    ensures ok { IfOk result (λ answer. OnOk answer
        (AreTaken judge.old.unit (events_of items.now) judge.new.unit)) }
    ensures err { IfOk result (λ answer. IfErr answer (λ refused.
        IsRefusedAmong judge.old.unit items.now refused judge.new.unit)) }
{
    for item in items {
        match judge.event(item.event, guess)? {
            Ok(()) => {}
            Err(why) => return Ok(Err(Refused { item: *item, why })),
        }
    }
    Ok(Ok(()))
}

// The log has mended the misprediction of the tenant at this position.
fn is_mended(items: &[Item], who: usize) -> bool {
    items.iter().any(|item| matches!(item.event, Event::Mend(q) | Event::Recover(q) if q == who))
}

// What was predicted where the log goes on at `pc`; another pc, where the misprediction was mended before.
fn guessed(pc: Option<u32>, mended: bool) -> Option<u32> {
    match (pc, mended) {
        (Some(pc), true) => Some(pc ^ 2),
        (None, true) => Some(2),
        (pc, false) => pc,
    }
}

// The event is a let that does not say what is predicted.
fn is_open(event: Event) -> bool {
    matches!(event, Event::Let(_, None))
}

/// A judge of the events of a log in turn. A let that says no predicted next pc waits, and so do the events after it, until
/// the next let says where the path goes on.
#[derive(Drop)]
pub struct LogJudge<'a> {
    pub judge: Judge<'a>,
    waiting: Vec<Item>,
    /// How many events were judged, up to 2^64 - 1.
    pub judged: u64,
}

impl<'a> LogJudge<'a> {
    /// A judge before the first event of a log.
    pub fn new(alloc: Global, judge: Judge<'a>) -> LogJudge<'a>
        ensures judge { result.judge ≡ judge.entry }
        ensures waits { result.waiting.items ≡ [] }
    {
        LogJudge {
            judge,
            waiting: Vec::new(alloc),
            judged: 0,
        }
    }

    // Judges what waits, where the log goes on at `pc`.
    fn settle(&mut self, pc: Option<u32>) -> Result<Result<(), Refused>, AllocError>
        ensures ok { IfOk result (λ answer. OnOk answer
            (AreTaken self.old.judge.unit (events_of self.old.waiting.items) self.new.judge.unit)) }
        ensures none { IfOk result (λ answer. OnOk answer (self.new.waiting.items ≡ [])) }
        ensures err { IfOk result (λ answer. IfErr answer (λ refused.
            IsRefusedAmong self.old.judge.unit self.old.waiting.items refused
            self.new.judge.unit)) }
    {
        let who = self.judge.unit.tenants.len();
        let items = self.waiting.as_slice();
        let guess = guessed(pc, is_mended(items, who));
        match judge_in_turn(&mut self.judge, items, guess)? {
            Ok(()) => {
                self.judged = self.judged.saturating_add(items.len() as u64);
                self.waiting.clear();
                Ok(Ok(()))
            }
            Err(refused) => Ok(Err(refused)),
        }
    }

    // A let says where the path goes on: what waits is judged.
    fn settle_before(&mut self, event: Event) -> Result<Result<(), Refused>, AllocError>
        ensures ok { IfOk result (λ answer. OnOk answer (Judges self.old [] self.new)) }
        ensures err { IfOk result (λ answer. IfErr answer (λ refused.
            IsRefusedAmong self.old.judge.unit self.old.waiting.items refused
            self.new.judge.unit)) }
    {
        match event {
            Event::Let(pc, _) => self.settle(pc),
            _ => Ok(Ok(())),
        }
    }

    // Judges an event, or lets it wait with those before it.
    fn judge_or_keep(&mut self, item: Item) -> Result<Result<(), Refused>, AllocError>
        ensures ok { IfOk result (λ answer. OnOk answer (Judges self.old (item ∷ []) self.new)) }
        ensures err { IfOk result (λ answer. IfErr answer (λ refused.
            IsRefusedAmong self.old.judge.unit (self.old.waiting.items ++ item ∷ []) refused
            self.new.judge.unit)) }
    {
        if self.waiting.is_empty() && !is_open(item.event) {
            self.judged = self.judged.saturating_add(1);
            return judge_in_turn(&mut self.judge, &[item], None);
        }
        match self.waiting.push(item) {
            Ok(()) => Ok(Ok(())),
            Err(_) => Err(AllocError),
        }
    }

    /// Takes the next event of the log: it is judged, or it waits.
    pub fn take(&mut self, item: Item) -> Result<Result<(), Refused>, AllocError>
        ensures ok { IfOk result (λ answer. OnOk answer (Judges self.old (item ∷ []) self.new)) }
        ensures err { IfOk result (λ answer. IfErr answer (λ refused.
            IsRefusedAmong self.old.judge.unit (self.old.waiting.items ++ item ∷ []) refused
            self.new.judge.unit)) }
    {
        match self.settle_before(item.event)? {
            Ok(()) => self.judge_or_keep(item),
            Err(refused) => Ok(Err(refused)),
        }
    }

    /// Ends the log with this verdict, unless an event that has waited is refused.
    pub fn close(&mut self, verdict: Verdict) -> Result<Verdict, AllocError>
        ensures { IfOk result (IsClosed self.old verdict self.new) }
    {
        match self.settle(None)? {
            Ok(()) => Ok(verdict),
            Err(refused) => Ok(Verdict::Refused(refused)),
        }
    }
}
