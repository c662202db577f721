//! The dispatch thread.
ghost use Rattle.std.specs.Prelude.{◌≡◌, IfSome, true};
ghost use Rattle.hints.specs.Hinted.{IsEndOf};
ghost use Rattle.pool.specs.Dispatching.{HintsLet, OffersLets};
ghost use Rattle.pool.specs.Terms.{Begins, IsGivenBack};
ghost use Rattle.pool.specs.declared.dispatch.Stepped.TheVariants.{Ended};
ghost use Rattle.workers.specs.Deeds.{CountsFrontDeeds};
ghost use Rattle.workers.specs.Turns.{TurnsAreTaken, IsTakenFrom};

use committing::PATIENCE;
use counts::{Total, WorkerSeat};
use front::{Front, FrontStill, Recovery, Rest, Turn};
use hints::{Hinter, Ring};
use instructions::Predictor;
use station::{Core, FrontSeat};
use std::sync::Wait;
use workers::{Backoff, Bounds, Gathered, TermShared, Turns};

// How a turn has ended.
#[derive(Clone, Copy)]
enum Stepped {
    Worked,
    Idle,
    // all tags of the next station are spent, and nobody is live
    Ended,
}

// Lets the next instruction, and hints its station. Where the tags of the station are spent, the front looks whether
// anybody is live.
fn let_next<K: Bounds + Ring, P: Predictor + Drop, G, R: Wait>(
    shared: &TermShared<'_, K, G, R>,
    front: &mut Front<P>,
    count: &mut Gathered,
    hinter: &mut Hinter,
) -> Stepped
    requires core { front.old.core ≡ shared.now.core.now }
    requires count { count.old.seat.of ≡ shared.now.state.now.counts }
    requires hinter { IsEndOf shared.now.state.now.hints hinter.old }
    ensures core { front.new.core ≡ shared.now.core.now }
    ensures count { count.new.seat.of ≡ shared.now.state.now.counts }
    ensures counted { CountsFrontDeeds front.old.seen front.new.seen count.old count.new }
    ensures hinter { IsEndOf shared.now.state.now.hints hinter.new }
    ensures hinted { HintsLet shared.now.core.now front.old.seen front.new.seen result
        hinter.old hinter.new }
    ensures offers { OffersLets front.old.seen front.new.seen hinter.old hinter.new }
    ensures ended { result ≡ Ended → front.new.rested ≡ true }
{
    let _ring = shared.core.ring();
    match front.turn(shared.core) {
        Turn::Let { station, .. } => {
            count.count(&shared.state.counts, Total::Lets, 1);
            let _is_put = shared.state.hints.push(shared.wait, hinter, station as u32);
            Stepped::Worked
        }
        Turn::Spent => match front.rest(shared.core) {
            Rest::Idle => Stepped::Ended,
            Rest::Live => Stepped::Idle,
        },
        Turn::Full | Turn::NoInstr | Turn::QueueFull => Stepped::Idle,
    }
}

// Recovers from a miss, and lets the next instruction where there is none.
fn recover_or_let<K: Bounds + Ring, P: Predictor + Drop, G, R: Wait>(
    shared: &TermShared<'_, K, G, R>,
    front: &mut Front<P>,
    count: &mut Gathered,
    hinter: &mut Hinter,
) -> Stepped
    requires core { front.old.core ≡ shared.now.core.now }
    requires count { count.old.seat.of ≡ shared.now.state.now.counts }
    requires hinter { IsEndOf shared.now.state.now.hints hinter.old }
    ensures core { front.new.core ≡ shared.now.core.now }
    ensures count { count.new.seat.of ≡ shared.now.state.now.counts }
    ensures counted { CountsFrontDeeds front.old.seen front.new.seen count.old count.new }
    ensures hinter { IsEndOf shared.now.state.now.hints hinter.new }
    ensures offers { OffersLets front.old.seen front.new.seen hinter.old hinter.new }
    ensures ended { result ≡ Ended → front.new.rested ≡ true }
{
    if let Recovery::Mended { squashed, .. } = front.recover(shared.core) {
        count.count(&shared.state.counts, Total::Squashes, squashed as u64);
        count.count(&shared.state.counts, Total::Mends, 1);
        return Stepped::Worked;
    }
    let_next(shared, front, count, hinter)
}

/// How the front of a term begins.
#[derive(Drop)]
pub(crate) enum Begin<P: Predictor + Drop> {
    /// The front begins with a predictor, at the start of the program.
    Fresh(P),
    /// The front goes on from where it was before the core was renewed.
    Again(FrontStill<P>),
}

/// All that the dispatch thread owns, and gives back where the core is to be renewed: the front's seat, its beginning,
/// the seat that it counts with, and its turns.
#[derive(Drop)]
pub(crate) struct Dispatcher<P: Predictor + Drop> {
    pub seat: FrontSeat,
    pub begin: Begin<P>,
    pub count: WorkerSeat,
    pub turns: Turns,
}

// Begins the front at the core of a term.
fn enter<'x, P: Predictor + Drop>(core: &'x Core, seat: FrontSeat, begin: Begin<P>) -> Front<'x, P>
    requires begins { Begins core.now begin seat }
    ensures core { result.core ≡ core.now }
{
    match begin {
        Begin::Fresh(predictor) => Front::new(core, seat, core.program(), predictor),
        Begin::Again(still) => still.enter(seat, core.program()),
    }
}

// Takes the turns of a term. True where the tags of a station are spent and nobody is live, with which the term ends.
fn take_turns<K: Bounds + Ring, P: Predictor + Drop, G, R: Wait>(
    shared: &TermShared<'_, K, G, R>,
    front: &mut Front<P>,
    count: &mut Gathered,
    hinter: &mut Hinter,
    turns: &mut Turns,
) -> bool
    requires core { front.old.core ≡ shared.now.core.now }
    requires count { count.old.seat.of ≡ shared.now.state.now.counts }
    requires hinter { IsEndOf shared.now.state.now.hints hinter.old }
    ensures core { front.new.core ≡ shared.now.core.now }
    ensures count { count.new.seat.of ≡ shared.now.state.now.counts }
    ensures counted { CountsFrontDeeds front.old.seen front.new.seen count.old count.new }
    ensures offers { OffersLets front.old.seen front.new.seen hinter.old hinter.new }
    ensures turns { TurnsAreTaken turns.old turns.new }
    ensures ended { result ≡ true → front.new.rested ≡ true }
    ensures taken { result ≡ true → IsTakenFrom turns.old turns.new }
{
    let mut backoff = Backoff::after(PATIENCE);
    while turns.take() {
        match recover_or_let(shared, front, count, hinter) {
            Stepped::Worked => backoff.reset(),
            Stepped::Idle => backoff.snooze(),
            Stepped::Ended => return true,
        }
        if shared.state.has_run_ended() {
            break;
        }
    }
    false
}

/// Lets instructions out, and recovers from misses. Where the tags of a station are spent and nobody is live, the term
/// is over, and the front leaves the core, after one turn at least.
pub(crate) fn dispatch<K: Bounds + Ring, P: Predictor + Drop, G, R: Wait>(
    shared: &TermShared<'_, K, G, R>,
    dispatcher: Dispatcher<P>,
) -> Option<Dispatcher<P>>
    requires begins { Begins shared.now.core.now dispatcher.begin dispatcher.seat }
    requires count { dispatcher.count.of ≡ shared.now.state.now.counts }
    ensures gives { IfSome result (IsGivenBack shared.now.core.now shared.now.state.now.counts) }
    ensures turns { IfSome result (λ next. IsTakenFrom dispatcher.turns next.turns) }
{
    let Dispatcher {
        seat,
        begin,
        count,
        mut turns,
    } = dispatcher;
    let mut front = enter(shared.core, seat, begin);
    let mut gathered = Gathered::new(count);
    let mut hinter = shared.state.hints.hinter();
    let has_ended = take_turns(shared, &mut front, &mut gathered, &mut hinter, &mut turns);
    let count = gathered.end(&shared.state.counts);
    if !has_ended {
        drop(front);
        return None;
    }
    shared.state.end_term();
    let (seat, still) = front.leave();
    Some(Dispatcher {
        seat,
        begin: Begin::Again(still),
        count,
        turns,
    })
}
