//! The entries of a program's word.
ghost use Rattle.std.specs.Prelude.{IfOk, IfErr, map};
ghost use Rattle.command_line.specs.Reading.{MatchesRows, IsNotEntered};
ghost use Rattle.command_line.specs.Tool.{app_of_word};
ghost use Rattle.command_line.specs.Values.{rows_in};

use crate::NoRun;
use crate::entries::Entries;
use crate::refusals::{refused, usage};
use crate::tool::tool;
use crate::word::{Word, page_of};
use std::alloc::Global;
use std::convert::AsStr;

/// The entries of a program's word in the words of a command line, of which the first is the program's name.
pub(crate) fn entered<'a, S: AsStr>(
    alloc: Global,
    word: Word,
    words: &'a [S],
) -> Result<Entries<'a>, NoRun>
    ensures ok { IfOk result (λ entries.
        MatchesRows (app_of_word word) (map S.text words.entry.now) (rows_in entries)) }
    ensures err { IfErr result (IsNotEntered (app_of_word word) (map S.text words.entry.now)) }
{
    let command = tool(alloc, word)?;
    let mut matches = match command.try_get_matches_from(words) {
        Ok(matches) => matches,
        Err(error) => return Err(refused(alloc, &error)),
    };
    let Some((found, matches)) = matches.remove_subcommand() else {
        return Err(usage(alloc, "ruu", "there is no command"));
    };
    let page = page_of(word);
    if found != page.name {
        return Err(usage(alloc, "ruu", "there is no command"));
    }
    Ok(Entries {
        alloc,
        program: page.program,
        matches,
    })
}
