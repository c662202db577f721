//! Devices that fail, from bytes to bytes.
use crate::failing::{FailingReader, FailingWriter, LISTING, REPORT};
use crate::same::same;
use bench::{Counted, Fault, alone};
use instructions::{Config, NotTaken};
use std::test::Fail;

fn config() -> Result<Config, Fail> {
    Ok(Config::new(16, 8, 1, 1, 1, 1_000_000, 0xffff_ffff)?)
}

#[test]
fn a_reader_that_fails_is_blamed(rt: HostRuntime) -> Result<(), Fail> {
    let config = config()?;
    for most in 0..=LISTING.len() {
        let mut reader = Counted::new(FailingReader { given: 0, most });
        let mut writer = Counted::new(Vec::new(rt.alloc()));
        let went = alone(rt.alloc(), &mut reader, &mut writer, &config, NotTaken);
        same(&rt, &went, &Err(Fault::Read));
        same(&rt, &reader.failures(), &1);
        same(&rt, &writer.failures(), &0);
        assert!(rt; writer.into_inner().is_empty());
    }
    Ok(())
}

#[test]
fn a_writer_that_fails_is_blamed_and_keeps_a_beginning(rt: HostRuntime) -> Result<(), Fail> {
    let config = config()?;
    same(&rt, &REPORT.len(), &61);
    for is_silent in [false, true] {
        for room in 0..REPORT.len() {
            let mut reader = Counted::new(LISTING);
            let mut writer = Counted::new(FailingWriter::new(rt.alloc(), room, is_silent));
            let went = alone(rt.alloc(), &mut reader, &mut writer, &config, NotTaken);
            same(&rt, &went, &Err(Fault::Write));
            same(&rt, &reader.failures(), &0);
            same(&rt, &writer.failures(), &1);
            same(&rt, &writer.into_inner().taken.as_slice(), &&REPORT[..room]);
        }
    }
    Ok(())
}
