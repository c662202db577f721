//! A verdict on the events of an out-of-order unit, one line of its log after another, for C: `ruu.h` declares the calls.
#![tactic(auto)]

ghost use Rattle.std.specs.Prelude.{◌≡◌, pos, None};
ghost use Rattle.isa.specs.Listing.{listing};
ghost use Rattle.ruu_judge.specs.Calls.{HasAnswered, HasKept, HasMade};

mod held;
mod loose;
mod making;
mod owned;
mod slot;

use held::{Answer, Held};
use making::{NotMade, made, rules_of};
pub use slot::Slot;
use std::alloc::Global;

// What the calls answer; the exit statuses of the program `judge` have these numbers.
const DONE: i32 = 0;

const NO_LISTING: i32 = 2;

const USED_WRONG: i32 = 3;

const NO_MEMORY: i32 = 5;

// The number of an answer.
fn number_of(answer: Answer) -> i32
    ensures { result ≡ Rattle.ruu_judge.specs.Calls.answer_number answer }
{
    match answer {
        Answer::Legal => DONE,
        Answer::Refused => 1,
        Answer::Unread => 4,
        Answer::NoMemory => NO_MEMORY,
        Answer::Ended => 6,
    }
}

/// Lays a judge of a listing's unit into `judge`, in which none is. 0: it is there; 2: the listing has a fault, at `line`; 3:
/// there is a judge, or these are no stations or flags; 5: there is no memory. After each but 0 `judge` is as it was.
#[unsafe(no_mangle)]
pub extern "C" fn ruu_judge_new(
    alloc: Global,
    text: &[u8],
    stations: usize,
    queue: usize,
    flags: u32,
    line: &mut u64,
    judge: &mut Slot,
) -> i32
    ensures { HasMade (listing text.now) stations queue flags judge.old.held result line.new judge.new.held }
{
    *line = 0;
    let rules = match rules_of(flags) {
        Some(rules) if 0 < stations && !judge.is_open(alloc) => rules,
        _ => return USED_WRONG,
    };
    match made(alloc, text, stations, queue, rules) {
        Ok(held) => {
            judge.put(held);
            DONE
        }
        Err(NotMade::Fault(at)) => {
            *line = at;
            NO_LISTING
        }
        Err(NotMade::Memory) => NO_MEMORY,
    }
}

/// Tells a judge the next line of a log, with its end or without. 0: its event is legal, or it has none; 1: it is refused; 3:
/// there is no judge; 4: the line is not read, and as if not told; 5: there is no memory; 6: the judge has ended before, by 1 or 5.
#[unsafe(no_mangle)]
pub extern "C" fn ruu_judge_event(alloc: Global, judge: &mut Slot, text: &[u8]) -> i32
    ensures { HasAnswered judge.old.held text.now result judge.new.held }
{
    let Some(mut held) = judge.taken(alloc) else {
        return USED_WRONG;
    };
    let (told, answer) = Box::replace(&mut held, Held::ended()).told(text);
    let _ = Box::replace(&mut held, told);
    judge.put(held);
    number_of(answer)
}

/// Writes as much as fits of the verdict's text, as the program `judge` prints it, into `text`. `length` says how long it is.
/// 0: it is written; 3: there is no judge; 5: there is no memory.
#[unsafe(no_mangle)]
pub extern "C" fn ruu_judge_reason(
    alloc: Global,
    judge: &mut Slot,
    text: &mut [u8],
    length: &mut usize,
) -> i32
    ensures { HasKept judge.old.held result judge.new.held }
{
    *length = 0;
    let Some(mut held) = judge.taken(alloc) else {
        return USED_WRONG;
    };
    let (kept, words) = Box::replace(&mut held, Held::ended()).text(alloc);
    let _ = Box::replace(&mut held, kept);
    judge.put(held);
    match words {
        Ok(words) => {
            *length = words.len();
            fill(text, words.as_str().as_bytes());
            DONE
        }
        Err(_) => NO_MEMORY,
    }
}

// Writes as many bytes as fit.
fn fill(text: &mut [u8], bytes: &[u8]) {
    let n = text.len().min(bytes.len());
    text[..n].copy_from_slice(&bytes[..n]);
}

/// Frees a judge, if there is one, and all that it holds.
#[unsafe(no_mangle)]
pub extern "C" fn ruu_judge_free(alloc: Global, judge: &mut Slot)
    ensures { judge.new.held ≡ None }
{
    let _ = judge.taken(alloc);
}
