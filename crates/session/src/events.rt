//! Answers that turns are taken up to.
ghost use Rattle.std.specs.Prelude.{◌≡◌};
ghost use Rattle.session.specs.Commands.{event_named};

use crate::replies::Reply;
use back::Refresh;
use station::{Finish, StationState};

/// An answer that turns are taken up to.
#[derive(Clone, Copy)]
pub enum Event {
    /// A load is blocked by an older store.
    Blocked,
    /// A jump or branch was mispredicted.
    Misprediction,
    /// The result of a squashed instruction changes nothing.
    Stale,
}

/// The event of this name.
pub(crate) fn event_in(name: &[u8]) -> Option<Event>
    ensures { result ≡ event_named name.now }
{
    if name == b"blocked".as_slice() {
        Some(Event::Blocked)
    } else if name == b"misprediction".as_slice() {
        Some(Event::Misprediction)
    } else if name == b"stale".as_slice() {
        Some(Event::Stale)
    } else {
        None
    }
}

/// The answer shows the event.
pub(crate) fn shows(event: Event, reply: &Reply) -> bool {
    match (event, reply) {
        (Event::Blocked, Reply::Refresh(refreshed)) => matches!(
            refreshed.answer,
            Refresh::Blocked { .. }
        ),
        (Event::Misprediction, Reply::Finish(finished)) => {
            matches!(finished.answer, Finish::Finished)
                && matches!(finished.seen.state, StationState::Miss)
        }
        (Event::Stale, Reply::Finish(finished)) => matches!(finished.answer, Finish::Stale),
        _ => false,
    }
}
