//! The instruction set as programs meet it: listings that are read, instructions and reports that are written, and the
//! operations, configurations and predictors of crate `instructions`.
#![tactic(auto)]

mod listing;
mod report;

pub use instructions::{
    BadConfig, Bimod, Config, End, Ending, Half, Instr, Kind, Memory, NotTaken, Op, Outcome,
    Predictor, Program, Reg, Stop, Taken, loaded, outcome, outcome_of, pc_plus_4,
};
pub use listing::{
    Added, FaultKind, Form, InstrText, Label, LineFault, Marked, Operands, RegisterStyle, Slot,
    Spot, TextFault, directive_text, form_of, forms, parse, parse_marked, parse_with_lines,
    register_in, statement_alone, text_is_read_back, the_first_fault_is_named,
};
pub use report::{Hexadecimal, RegisterName, fault_text, report_text};
