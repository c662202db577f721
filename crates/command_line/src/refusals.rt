//! What a refused command line is told.
ghost use Rattle.clap.specs.Words.{kind_of};
ghost use Rattle.command_line.specs.Reading.{IsRefusalOf, IsUsage};

use crate::NoRun;
use crate::tool::VERSION;
use clap::Error;
use clap::error::ErrorKind;
use std::alloc::Global;

/// What an error of `clap`'s becomes. Each command has the version of the program.
pub(crate) fn refused(alloc: Global, error: &Error) -> NoRun
    ensures { IsRefusalOf (kind_of error.now) result }
{
    let told = match error.kind() {
        ErrorKind::DisplayVersion => format!(in alloc; "ruu {VERSION}\n"),
        _ => format!(in alloc; "{error}"),
    };
    let Ok(text) = told else {
        return NoRun::Memory;
    };
    match error.kind() {
        ErrorKind::DisplayHelp | ErrorKind::DisplayVersion => NoRun::Help(text),
        ErrorKind::OutOfMemory => NoRun::Memory,
        _ => NoRun::Usage(text),
    }
}

/// `what` is wrong with the words of a program, in the form of `clap`'s own texts.
pub(crate) fn usage(alloc: Global, program: &str, what: &str) -> NoRun
    ensures { IsUsage result }
{
    let text = format!(in alloc;
        "error: {what}\n\nFor more information, try '{program} --help'.\n"
    );
    match text {
        Ok(text) => NoRun::Usage(text),
        Err(_) => NoRun::Memory,
    }
}
