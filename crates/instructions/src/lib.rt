//! The integer operations of MIPS I without delay slots and the outcome of each, and the programs, configurations and
//! predictors that every machine here shares.
#![tactic(auto)]

mod config;
mod end;
mod guessing;
mod instr;
mod memory;
mod op;
mod predictor;
mod products;
mod program;
mod reg;
mod semantics;
mod stop;

pub use config::{BadConfig, Config};
pub use end::{End, Ending};
pub use guessing::{Leaver, guess, tell};
pub use instr::Instr;
pub use memory::Memory;
pub use op::{Half, Kind, Op};
pub use predictor::{Bimod, NotTaken, Predictor, Taken};
pub use program::Program;
pub use reg::Reg;
pub use semantics::{loaded, outcome, outcome_by_kind, outcome_of, pc_plus_4};
pub use stop::{Outcome, Stop};
