//! The rule for one load over the older stores.
ghost use Rattle.std.specs.Prelude.{◌≡◌, ◌+◌, ◌%◌, ◌^◌, IsSome, None};
ghost use Rattle.lsq.specs.Entries.{bytes, load_entry_at};
ghost use Rattle.lsq.specs.LoadRule.{lacks_address, overlaps, taken_from, youngest, answer_over, answer};

use crate::{Entry, Queue, Width};

/// The answer to a load of known address.
#[derive(Clone, Copy, Debug, PartialEq)]
pub enum Answer {
    /// The bytes of the load, as a little endian number, from the data of an older store.
    Forward(u32),
    /// The load reads data memory: no older store writes a byte of it.
    Memory,
    /// The load has to wait for the store at this index of the queue.
    Blocked(usize),
}

impl Queue {
    /// Answers the load at an index by the older stores.
    /// This is memory disambiguation by the rule of SimpleScalar's load/store queue: a load waits
    /// for an older store whose address or data is unknown, and else gets the data of the youngest
    /// older store to its bytes (store-to-load forwarding); where that has only some of them, it
    /// waits too.
    pub fn answer(&self, at: usize) -> Answer
        requires { IsSome (load_entry_at self.now.entries at) }
        ensures { result ≡ answer self.now.entries at }
    {
        let entries = self.entries.as_slice();
        let load = entries[at];
        let address = load.address.unwrap();
        answer_over(&entries[..at], address, load.width)
    }
}

/// Answers a load of this width at `address` from the older stores.
pub fn answer_over(older: &[Entry], address: u32, width: Width) -> Answer
    ensures { result ≡ answer_over older.now address (bytes width) }
{
    if let Some((place, _)) = youngest_lacking(older) {
        return Answer::Blocked(place);
    }
    answer_over_known(older, address, width)
}

/// Answers a load as `answer_over` does, by older stores that have their addresses.
pub fn answer_over_known(older: &[Entry], address: u32, width: Width) -> Answer
    requires { youngest lacks_address older.now ≡ None }
    ensures { result ≡ answer_over older.now address (bytes width) }
{
    let Some((place, store)) = youngest_overlapping(older, address, width) else {
        return Answer::Memory;
    };
    match taken_from(&store, address, width) {
        Some(raw) => Answer::Forward(raw),
        None => Answer::Blocked(place),
    }
}

// The youngest store without its address, with its index.
#[tactic(auto, using(crate::proofs::Youngest::found_or_passed))]
fn youngest_lacking(older: &[Entry]) -> Option<(usize, Entry)>
    ensures { result ≡ youngest lacks_address older.now }
{
    let mut at = older.len();
    while at > 0 {
        at -= 1;
        let entry = older[at];
        if lacks_address(&entry) {
            return Some((at, entry));
        }
    }
    None
}

// The youngest store that overlaps a load, with its index.
#[tactic(auto, using(crate::proofs::Youngest::found_or_passed))]
fn youngest_overlapping(older: &[Entry], address: u32, width: Width) -> Option<(usize, Entry)>
    ensures { result ≡ youngest (overlaps address (bytes width)) older.now }
{
    let mut at = older.len();
    while at > 0 {
        at -= 1;
        let store = older[at];
        if overlaps(&store, address, width) {
            return Some((at, store));
        }
    }
    None
}

/// The entry is a store without its address.
pub fn lacks_address(entry: &Entry) -> bool
    ensures { result ≡ lacks_address entry.now }
{
    entry.store && entry.address.is_none()
}

/// The entry is a store that has a byte in common with a load of this width at this address.
pub fn overlaps(entry: &Entry, address: u32, width: Width) -> bool
    ensures { result ≡ overlaps address (bytes width) entry.now }
{
    if !entry.store {
        return false;
    }
    let Some(base) = entry.address else {
        return false;
    };
    u64::from(base) < end_of(address, width) && u64::from(address) < end_of(base, entry.width)
}

// The end of an access, a sum that does not wrap.
fn end_of(address: u32, width: Width) -> u64
    ensures { result ≡ address + bytes width }
{
    u64::from(address) + u64::from(width.bytes())
}

/// The bytes of a load from the data of a store, where it has them all.
pub fn taken_from(store: &Entry, address: u32, width: Width) -> Option<u32>
    ensures { let stored = bytes store.now.width in
        result ≡ taken_from store.now.address stored store.now.content address (bytes width) }
{
    let base = store.address?;
    let content = store.content?;
    if base <= address && end_of(address, width) <= end_of(base, store.width) {
        Some(low_bytes(content >> (8 * (address - base)), width))
    } else {
        None
    }
}

// The low bytes of a number, as many as the width says.
fn low_bytes(number: u32, width: Width) -> u32
    ensures { result ≡ number % 256 ^ bytes width }
{
    match width {
        Width::Byte => number & 0xff,
        Width::Half => number & 0xffff,
        Width::Word => number,
    }
}
