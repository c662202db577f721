//! Devices that fail, under command lines.
use crate::failing::{FailingReader, FailingWriter, LISTING, REPORT};
use crate::same::{same, same_in};
use command::{Asked, Line, Refusal, Went, asked, go};
use counted_io::Counted;
use pool::Open;
use std::alloc::Global;
use std::sync::Wait;
use std::test::Fail;
use std::thread::Threads;

/// A listing with a fault, and its line of 25 bytes.
const FAULTY: &[u8] = b"nop\nnop\nadd $1,$2\n";

const FAULT: &[u8] = b"fault line 3 BadOperands\n";

/// Listings, and what is written of each.
const TEXTS: &[(&[u8], &[u8])] = &[(LISTING, REPORT), (FAULTY, FAULT)];

/// With threads, and without.
const FORMS: &[&[&str]] = &[
    &["ruu", "run", "double.s"],
    &["ruu", "run", "double.s", "--units", "4"],
    &["ruu", "run", "double.s", "--alone"],
];

// Each refusal has the same status, and no threads tell of it.
fn is_refused(went: &Went, refusal: Refusal) -> bool {
    went.status == 5 && went.line == Line::Refused(refusal)
}

#[test]
fn a_reader_that_fails_is_blamed_and_nothing_is_written(rt: HostRuntime) -> Result<(), Fail> {
    for &form in FORMS {
        let Ok(asked) = asked(rt.alloc(), form) else {
            return Err(Fail::new("there is no run"));
        };
        for most in 0..=LISTING.len() {
            let mut reader = Some(Counted::new(FailingReader { given: 0, most }));
            let mut writer = Counted::new(FailingWriter::new(rt.alloc(), 0, false));
            let went = go(&rt, rt.alloc(), &asked, &mut reader, &mut writer, &Open);
            same_in(&rt, &most, &is_refused(&went, Refusal::Read), &true);
            same(&rt, &writer.failures(), &0);
            assert!(rt; writer.into_inner().taken.is_empty());
        }
    }
    Ok(())
}

// Whether a writer with so much room is blamed, and keeps as much of the text.
fn keeps_a_beginning<R: Threads + Wait + Sync>(
    rt: &R,
    alloc: Global,
    asked: &Asked<'_>,
    (listing, text): (&[u8], &[u8]),
    (room, is_silent): (usize, bool),
) -> bool {
    let mut reader = Some(Counted::new(listing));
    let mut writer = Counted::new(FailingWriter::new(alloc, room, is_silent));
    let went = go(rt, alloc, asked, &mut reader, &mut writer, &Open);
    let is_blamed = is_refused(&went, Refusal::Write) && writer.failures() == 1;
    is_blamed && text.get(..room) == Some(writer.into_inner().taken.as_slice())
}

#[test]
fn a_writer_that_fails_is_blamed_and_keeps_a_beginning(rt: HostRuntime) -> Result<(), Fail> {
    for &form in FORMS {
        let Ok(asked) = asked(rt.alloc(), form) else {
            return Err(Fail::new("there is no run"));
        };
        for &text in TEXTS {
            for room in 0..text.1.len() {
                for is_silent in [false, true] {
                    let device = (room, is_silent);
                    let keeps = keeps_a_beginning(&rt, rt.alloc(), &asked, text, device);
                    same_in(&rt, &device, &keeps, &true);
                }
            }
        }
    }
    Ok(())
}
