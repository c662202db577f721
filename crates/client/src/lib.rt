//! How a caller from outside drives the seats of a core: an instruction is let, claimed and finished
//! by public calls alone, and its values are proved from their clauses and from public laws alone. A
//! second one waits for the first one's value, which reaches it along a link. The core may be renewed in
//! between: then all seats are in one hand again, and the next instruction gets a first tag.
#![tactic(auto)]

mod by_hand;
mod chain;
mod drive;
mod seats;

pub use chain::{is_chain, second_outcome};
pub use drive::{Worked, first_outcome, work};
pub use seats::{Seats, gather, make, renew_all};
