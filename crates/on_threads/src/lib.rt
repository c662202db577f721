//! A run on threads, from the bytes of a reader to those of a writer, and what watches it.
#![tactic(auto)]

mod running;
mod shaker;
mod teller;
mod threads;
mod watcher;
mod went;

pub use running::go;
pub use watcher::{ProgressWatcher, watch};
pub use went::written;
