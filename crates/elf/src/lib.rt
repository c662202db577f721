//! Executables: from the bytes of an ELF32 file for little endian MIPS to the words of its text and
//! the bytes of its data. The layouts are those of the System V ABI, and of its MIPS supplement.
#![tactic(auto)]

mod bytes;
mod header;
mod image;
mod refusal;
mod section;
mod segment;
mod symbol;

pub use image::{Image, read_image};
pub use refusal::Refusal;
pub use symbol::{Function, name_at, read_functions};
