//! Each kind of step, with what it asks and tells.

mod claim;
mod dispatch;
mod leave;
mod look;
mod retire;
mod wakeup;
mod walk;
mod writeback;

pub(crate) use retire::{Access, Leaving};
