//! The arguments of a command, as `clap` reads them and as help shows them.
ghost use Rattle.std.specs.Prelude.{◌≡◌, IfOk, false, map};
ghost use Rattle.clap.specs.Words.{app_of};
ghost use Rattle.command_line.specs.Tool.{IsArg, IsCommand, rule_of_argument, with_rules};
ghost use Rattle.clap.specs.declared.builder.command.Command.TheViews.{out-Command};

use clap::{Arg, ArgAction, Command};
use std::alloc::{AllocError, Global};

/// An argument of a command, with its help.
#[derive(Clone, Copy)]
pub(crate) enum Argument {
    /// The file of the listing, with its help.
    File(&'static str),
    /// An option with one value, and what help calls the value.
    Valued {
        name: &'static str,
        value: &'static str,
        help: &'static str,
    },
    /// An option without a value.
    Flag {
        name: &'static str,
        help: &'static str,
    },
}

fn made<'a>(alloc: Global, argument: Argument) -> Arg<'a>
    ensures { IsArg (rule_of_argument argument) result }
{
    match argument {
        Argument::File(help) => {
            let file = Arg::new(alloc, "FILE");
            file.required(true).help(help)
        },
        Argument::Valued { name, value, help } => {
            let option = Arg::new(alloc, name);
            option.long(name).value_name(value).help(help)
        },
        Argument::Flag { name, help } => {
            let flag = Arg::new(alloc, name);
            flag.long(name).action(ArgAction::SetTrue).help(help)
        },
    }
}

/// Adds arguments in turn.
pub(crate) fn with_arguments<'a>(
    alloc: Global,
    command: Command<'a>,
    arguments: &[Argument],
) -> Result<Command<'a>, AllocError>
    requires { (out-Command command).has_globals ≡ false }
    ensures { IfOk result (IsCommand (with_rules (app_of command.entry)
        (map rule_of_argument arguments.now))) }
{
    let mut built = command;
    for argument in arguments {
        built = built.arg(made(alloc, *argument))?;
    }
    Ok(built)
}
