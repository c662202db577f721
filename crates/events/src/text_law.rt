//! What a text that is legal says.
ghost use Rattle.events.specs.Text.{EachLegalTextIsAHistory};

use crate::law::a_log_that_is_taken_is_a_history;

/// The events of a text with the verdict `Legal`, from a unit before its first let on, are a legal history of the unit, as
/// `a_log_that_is_taken_is_a_history` has it of events.
pub fn a_legal_text_is_a_history()
    ensures { EachLegalTextIsAHistory }
{
    a_log_that_is_taken_is_a_history();
}
