//! The log of commits that is asked for.

/// A log of commits that is asked for.
#[derive(Clone, Copy)]
pub struct Logged<'a> {
    /// The file of the listing.
    pub file: &'a str,
    /// The most instructions that are run.
    pub limit: u64,
    /// The number of the first instruction that is logged, from 1 on.
    pub from: u64,
    /// After how many instructions a hash is logged, in place of a line for each; 0 where each has its line.
    pub hash: u64,
    /// The text of each instruction is wanted.
    pub text: bool,
}
