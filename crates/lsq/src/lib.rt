//! The load/store queue: memory instructions in program order, and the rule for one load over the
//! older stores. The one-thread unit and the shared one ask it store by store, by `lacks_address`, `overlaps` and
//! `taken_from`; `Queue::answer` answers a load of the queue over all older entries at once.
#![tactic(auto)]

mod answer;
mod entry;
mod law;
mod queue;

pub use answer::{Answer, answer_over, answer_over_known, lacks_address, overlaps, taken_from};
pub use entry::{Entry, Width};
pub use law::loads_read_the_last_stores;
pub use queue::{Full, MOST_ENTRIES, Queue};
