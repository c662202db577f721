//! What a log says that is taken, and what a refusal says.
ghost use Rattle.events.specs.Logs.{EachLogIsAHistory};
ghost use Rattle.events.specs.Placed.{EachRefusalIsFreeOfPlacing};

use inorder::one_thread_unit_is_right;

/// Events that are taken in turn are a legal history of the unit that makes the steps that they say, in their order, and
/// else only links, deliveries and mends; and what has retired is the in-order machine's state.
pub fn a_log_that_is_taken_is_a_history()
    ensures { EachLogIsAHistory }
{
    one_thread_unit_is_right();
}

/// Where events are taken in turn and a step of the next one is refused, no legal history at all makes the steps before it
/// and then that one, wherever its links and deliveries stand. Mends that the judge has made are among these steps.
pub fn a_refused_event_is_free_of_placing()
    ensures { EachRefusalIsFreeOfPlacing }
{}
