//! Machine words: how MIPS I encodes the operations of a listing. The fields, opcodes and functions
//! are those of the MIPS I instruction set (G. Kane, MIPS RISC Architecture, appendix A).
#![tactic(auto)]

mod decoding;
mod encoding;
mod fields;
mod laws;
mod layout;

pub use decoding::{Decoded, decode, decode_as};
pub use encoding::encode;
pub use laws::{each_operation_has_a_word, each_word_is_written, one_word_for_each_instruction};
pub use layout::{Layout, Shape, layout_of, operation_of};
