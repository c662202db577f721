//! The one-thread unit: an out-of-order core that one caller turns.
#![tactic(auto)]

mod bench;
mod choices;
mod chooser;
mod decoded;
mod dispatch;
mod execute;
mod fetch;
mod forwarding;
mod leaver;
mod leaves;
mod memory_port;
mod pipeline;
mod possible;
mod retire;
mod source;
mod station;
mod steps;
mod window;
mod with_pending_low;

pub use bench::{Bench, Turn};
pub use chooser::{Chooser, Order, Seeded};
pub use decoded::{Decoded, access};
pub use dispatch::{Fetched, waiting_half};
pub use execute::{Operands, Ready};
pub use fetch::{fetch_at, fetch_known};
pub use leaver::{guess, leaver_of, take_leaver};
pub use leaves::{Goes, Leaves};
pub use memory_port::{Answered, value_by};
pub use pipeline::Pipeline;
pub use possible::{Step, Steps};
pub use retire::leave_untold;
pub use station::{Stage, Station, made_at_let};
pub use window::{Missed, Window};
pub use with_pending_low::WithPendingLow;
