//! The command line of a program, as `clap` reads it.
ghost use Rattle.std.specs.Prelude.{◌≡◌, IfOk};
ghost use Rattle.clap.specs.Words.{app_of, new_app};
ghost use Rattle.command_line.specs.Tool.{IsCommand, app_of_word, tool, with_version};

use crate::arguments::with_arguments;
use crate::word::{Page, Word, page_of};
use clap::Command;
use std::alloc::{AllocError, Global};

/// The version, and on a line of its own the kit by which it is proved.
pub(crate) const VERSION: &str = "1.0.0\nrattle-kit-13f logic dac8208d650f15bf";

const ABOUT: &str = "An out-of-order core with a register update unit";

// A command with what it is for, the version, and what stands below its options.
fn headed<'a>(alloc: Global, page: Page) -> Command<'a>
    ensures { IsCommand (with_version (new_app page.name.now)) result }
{
    let command = Command::new(alloc, page.name);
    command
        .version(VERSION)
        .about(page.about)
        .after_help(page.notes)
}

/// The command line of a program, which has this one word.
pub(crate) fn tool<'a>(alloc: Global, word: Word) -> Result<Command<'a>, AllocError>
    ensures { IfOk result (λ command. app_of command ≡ tool (app_of_word word)) }
{
    let page = page_of(word);
    let command = with_arguments(alloc, headed(alloc, page), page.arguments)?;
    let named = Command::new(alloc, "ruu");
    let top = named.version(VERSION).about(ABOUT);
    top.subcommand(command)
}
