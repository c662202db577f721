//! What standard error is told of a file: why it has no listing, or what may be wrong with it.

use crate::no_listing::NoListing;
use crate::remedies::remedy_of;
use crate::unset::reads_unset_gp;
use disassembly::{Refusal, instructions, refusals};
use elf::{name_at, read_functions, read_image};
use std::alloc::Global;
use std::str;

/// The most refusals that are told.
const MOST: usize = 200;

// The name of the function in which an address stands, if the file names one.
fn function_of(alloc: Global, file: &[u8], address: u32) -> Option<&str> {
    let functions = read_functions(alloc, file).ok()?;
    let mut last = None;
    let mut start = 0;
    for function in functions.as_slice() {
        if start <= function.address && function.address <= address {
            start = function.address;
            last = Some(function.name);
        }
    }
    str::from_utf8(name_at(file, last?)).ok()
}

// The address of a word that is refused.
fn address_of(why: Refusal) -> Option<u32> {
    match why {
        Refusal::Word { address, .. }
        | Refusal::Target { address, .. }
        | Refusal::Slot { address, .. }
        | Refusal::NoSlot { address, .. } => Some(address),
        Refusal::File { .. } | Refusal::Memory => None,
    }
}

// Tells a refusal, with its function and what avoids it.
fn tell_one(rt: &HostRuntime, name: &str, why: Refusal, file: &[u8]) {
    let place = match address_of(why) {
        Some(address) => function_of(rt.alloc(), file, address).unwrap_or(""),
        None => "",
    };
    let between = if place.is_empty() { "" } else { ": in " };
    let _ = match remedy_of(why) {
        Some(remedy) => eprintln!(rt; "ruu: {name}{between}{place}: {why}; {remedy}"),
        None => eprintln!(rt; "ruu: {name}{between}{place}: {why}"),
    };
}

// All refusals of the words of a file; none where they cannot be had.
fn all_of(alloc: Global, file: &[u8]) -> Option<Vec<Refusal>> {
    let image = read_image(alloc, file).ok()?;
    refusals(alloc, image.code()).ok()
}

// Tells each refusal of a file's words.
fn tell_all(rt: &HostRuntime, name: &str, first: Refusal, file: &[u8]) {
    let Some(all) = all_of(rt.alloc(), file) else {
        return tell_one(rt, name, first, file);
    };
    for why in all.iter().take(MOST) {
        tell_one(rt, name, *why, file);
    }
    let more = all.len().saturating_sub(MOST);
    if more > 0 {
        let _ = eprintln!(rt; "ruu: {name}: {more} more are refused");
    }
}

/// Tells why a file has no listing: the first refusal, or all.
pub(crate) fn tell(rt: &HostRuntime, name: &str, all: bool, why: &NoListing, file: &[u8]) {
    match *why {
        NoListing::Refused { why } if all => tell_all(rt, name, why, file),
        NoListing::Refused { why } => tell_one(rt, name, why, file),
        _ => {
            let _ = eprintln!(rt; "ruu: {name}: {why}");
        }
    }
}

// The address at which a file reads `$gp`, if nothing sets it.
fn gp_read(alloc: Global, file: &[u8]) -> Option<u32> {
    let image = read_image(alloc, file).ok()?;
    let code = instructions(alloc, image.code()).ok()?;
    reads_unset_gp(code.as_slice())
}

/// Warns of a `$gp` that is read, where nothing sets it.
pub(crate) fn warn(rt: &HostRuntime, name: &str, file: &[u8]) {
    if let Some(address) = gp_read(rt.alloc(), file) {
        let place = function_of(rt.alloc(), file, address).unwrap_or("the text");
        let _ = eprintln!(rt;
            "ruu: {name}: warning: $gp is read in {place} at {address:#010x} and nothing sets it, so it is 0; compile with -G0"
        );
    }
}
