//! A shared unit driven by hand, on one thread: a script of commands, the public calls that they make,
//! and the transcript of what is answered.
#![tactic(auto)]

mod answer_words;
mod commands;
mod events;
mod front_calls;
mod help;
mod lines;
mod names;
mod operands;
mod play;
mod queue;
mod reading;
mod renewal;
mod replies;
mod script;
mod session;
mod shown;
mod tables;
mod texts;
mod tokens;
mod turns;
mod undo;
mod units;
mod verbs;

pub use commands::Command;
pub use events::Event;
pub use lines::told;
pub use names::{Party, UNITS, unit_in};
pub use play::write_play;
pub use reading::{Goal, Line, line_in};
pub use replies::{
    Finished, Head, Info, NextFetch, Operand, Producer, Refreshed, Refusal, Reply, Row,
};
pub use script::drive;
pub use session::Session;
pub use texts::line_of;
pub use units::{Claimed, Held};
pub use verbs::Verb;
