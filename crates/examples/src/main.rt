//! Runs each listing of the examples and of the worked rows in each form, and tells where one does not go as the report
//! beside it says; or, with the word `time`, times the listing of standard input.
#![tactic(auto)]

mod example;
mod forms;
mod slow;
mod times;

use example::Example;
use forms::{Answer, HELD, OPTION_SETS, from_bytes_to_bytes, in_order, is_named_twice, run};
use pool::Open;
use slow::Slow;
use std::env;
use std::io::{self, Eprint};
use std::process::ExitCode;
use std::sync::Wait;
use std::thread::Threads;

/// The folders of listings, and how the names of their listings begin.
const FOLDERS: &[(&str, &str)] = &[(".", ""), ("rows", "rows/")];

fn main(rt: HostRuntime) -> ExitCode {
    let Ok(words) = words(&rt) else {
        return ExitCode::from(5);
    };
    if words.get(1).is_some_and(|word| word.as_str() == "time") {
        return times::time(&rt, &rt, &words[2..]);
    }
    if let Err(error) = tell_all(&rt, &rt) {
        let _ = eprintln!(rt; "examples: {error}");
        return ExitCode::from(5);
    }
    ExitCode::from(0)
}

// The words of the command line, its own name among them.
fn words(rt: &HostRuntime) -> io::Result<Vec<String>> {
    Ok(env::args(rt)?.collect(rt.alloc())?)
}

// Runs each listing.
fn tell_all<T: Threads + Wait + Sync>(rt: &HostRuntime, wait: &T) -> io::Result<()> {
    for &(folder, begin) in FOLDERS {
        for name in &example::names(rt, folder, begin)? {
            let example = Example::read(rt, name.as_str())?;
            tell(rt, wait, &example)?;
        }
    }
    Ok(())
}

// Tells the status of a listing under the options that it names, and where its report is another one.
fn tell<T: Threads + Wait + Sync>(rt: &HostRuntime, wait: &T, example: &Example) -> io::Result<()> {
    let options = example.options(rt.alloc())?;
    let listing = example.listing.as_slice();
    let plain = run(wait, rt.alloc(), options.as_slice(), &[], listing, &Open)?;
    tell_plain(rt, example, &plain)?;
    tell_one_thread(rt, example, options.as_slice(), plain.status)?;
    tell_forms(rt, wait, example, options.as_slice(), plain.status)
}

// Tells the status of a run under the options that the listing names, and whether its report is another one.
fn tell_plain(rt: &HostRuntime, example: &Example, plain: &Answer) -> io::Result<()> {
    let name = example.name.as_str();
    let status = plain.status;
    println!(rt; "{name}: status {status}")?;
    if !plain.is(status, example) {
        println!(rt; "{name}: another report")?;
    }
    Ok(())
}

// Tells in which of the forms without a command line a listing has another status or report.
fn tell_one_thread(
    rt: &HostRuntime,
    example: &Example,
    options: &[&str],
    status: u8,
) -> io::Result<()> {
    let name = example.name.as_str();
    let listing = example.listing.as_slice();
    if !from_bytes_to_bytes(rt.alloc(), options, listing)?.is(status, example) {
        println!(rt; "{name}: another report from bytes to bytes")?;
    }
    if in_order(rt.alloc(), options, listing)? != example.report {
        println!(rt; "{name}: another report in order")?;
    }
    Ok(())
}

// Tells in which of the further forms a listing has another status or report.
fn tell_forms<T: Threads + Wait + Sync>(
    rt: &HostRuntime,
    wait: &T,
    example: &Example,
    options: &[&str],
    status: u8,
) -> io::Result<()> {
    let listing = example.listing.as_slice();
    for form in OPTION_SETS {
        if !is_named_twice(options, form)
            && !run(wait, rt.alloc(), options, form, listing, &Open)?.is(status, example)
        {
            tell_form(rt, example, form, "")?;
        }
    }
    for form in HELD {
        if !is_named_twice(options, form)
            && !run(wait, rt.alloc(), options, form, listing, &Slow::new())?.is(status, example)
        {
            tell_form(rt, example, form, ", of units that are held")?;
        }
    }
    Ok(())
}

// Tells that a listing has another status or report in a form.
fn tell_form(rt: &HostRuntime, example: &Example, form: &[&str], units: &str) -> io::Result<()> {
    let name = example.name.as_str();
    println!(rt; "{name}: another report with {form:?}{units}")
}
