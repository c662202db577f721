//! Numbers in a file, the lowest byte first.
ghost use Rattle.std.specs.Prelude.{◌≡◌, ◌≤◌, ◌<◌, ◌+◌, ◌*◌, ◌^◌, IfOk, length};
ghost use Rattle.elf.specs.Bytes.{half_at as half_of, word_at as word_of, words as words_of};
ghost use Rattle.elf.specs.Images.{zeros as zeros_of};

use std::alloc::{AllocError, Global};

pub fn half_at(file: &[u8], at: usize) -> u32
    requires { at + 2 ≤ length file.now }
    ensures value { result ≡ half_of file.now at }
    ensures small { result < 2 ^ 16 }
{
    u32::from(file[at]) + (u32::from(file[at + 1]) << 8)
}

pub fn word_at(file: &[u8], at: usize) -> u32
    requires { at + 4 ≤ length file.now }
    ensures { result ≡ word_of file.now at }
{
    let low = u32::from(file[at]) + (u32::from(file[at + 1]) << 8);
    let high = u32::from(file[at + 2]) + (u32::from(file[at + 3]) << 8);
    low + (high << 16)
}

/// This number of words, one after the other.
#[tactic(auto, using(crate::proofs::Steps::words_none, crate::proofs::Steps::words_next, crate::proofs::Steps::words_length))]
pub fn words(alloc: Global, file: &[u8], at: usize, count: usize) -> Result<Vec<u32>, AllocError>
    requires { at + 4 * count ≤ length file.now }
    ensures value { IfOk result (λ v. v.items ≡ words_of file.now at count) }
    ensures length { IfOk result (λ v. length v.items ≡ count) }
{
    let mut found = Vec::with_capacity(alloc, count)?;
    for k in 0..count {
        let word = word_at(file, at + 4 * k);
        found.push(word)?;
    }
    Ok(found)
}

/// This number of bytes that are 0.
#[tactic(auto, unfolding(crate::specs::Images::zeros))]
pub fn zeros(alloc: Global, count: usize) -> Result<Vec<u8>, AllocError>
    ensures value { IfOk result (λ v. v.items ≡ zeros_of count) }
    ensures length { IfOk result (λ v. length v.items ≡ count) }
{
    let mut bytes = Vec::new(alloc);
    bytes.resize(count, 0)?;
    Ok(bytes)
}
