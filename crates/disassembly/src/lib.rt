//! From the bytes of an executable to a listing, which says exactly what the words of its
//! text and the bytes of its data mean.
#![tactic(auto)]

mod conversion;
mod data;
mod foreign;
mod lines;
mod meaning;
mod refusal;
mod writing;

pub use conversion::listing_of;
pub use foreign::Foreign;
pub use meaning::{instructions, refusals};
pub use refusal::Refusal;
