//! Lines of a script, by what they ask for.
ghost use Rattle.std.specs.Prelude.{◌≡◌};
ghost use Rattle.session.specs.Lines.{IsLine, ends_script, goal_of, is_command, is_question, is_undo, line_by, may_change, times_named, times_of};
ghost use Rattle.session.specs.Tokens.{texts_of, tokens_of};

use crate::commands::{Command, command_in};
use crate::events::Event;
use crate::operands::{bare, only_event, only_number, only_pc};
use crate::tokens::{Tokens, tokens_in};
use crate::verbs::{Verb, verb_in};
use lexical::decimal_in;

/// The greatest count before a command.
const MOST_TIMES: u32 = 1000;

/// Where turns come to an end.
#[derive(Clone, Copy)]
pub enum Goal {
    /// This number of instructions have retired.
    Retired(u32),
    /// The next instruction to retire is the one at this pc.
    Next(u32),
    /// A turn is answered so.
    Event(Event),
}

/// A line of a script, by what it asks for.
#[derive(Clone, Copy)]
pub enum Line {
    /// The line has no word, or none before a `#`.
    Nothing,
    /// The line begins with no command.
    Unknown,
    /// The count before a command is too great.
    Miscounted,
    /// The line has operands that this command does not take.
    Wants(Verb),
    Asks(Command),
    /// All stations, and who creates which register.
    Table,
    /// The loads and stores in flight.
    Queue,
    /// Turns in the order of the unit on one thread.
    Turns(Goal),
    /// The last command that may have changed something is taken back.
    Undo,
    /// The commands that there are.
    Help,
    /// The instructions of the program.
    List,
    /// The end of the script.
    Quit,
}

// The event or the pc up to which turns are taken.
fn goal_in(tokens: &Tokens<'_>) -> Option<Goal>
    ensures { result ≡ goal_of (texts_of tokens.now) }
{
    match only_event(tokens) {
        Some(event) => Some(Goal::Event(event)),
        None => Some(Goal::Next(only_pc(tokens)?)),
    }
}

// The line of a word and its operands.
fn line_by(verb: Verb, tokens: &Tokens<'_>) -> Option<Line>
    ensures { result ≡ line_by verb (texts_of tokens.now) }
{
    match verb {
        Verb::Table => bare(tokens, Line::Table),
        Verb::Queue => bare(tokens, Line::Queue),
        Verb::Step => Some(Line::Turns(Goal::Retired(only_number(tokens)?))),
        Verb::Until => Some(Line::Turns(goal_in(tokens)?)),
        Verb::Undo => bare(tokens, Line::Undo),
        Verb::Help => bare(tokens, Line::Help),
        Verb::List => bare(tokens, Line::List),
        Verb::Quit => bare(tokens, Line::Quit),
        _ => Some(Line::Asks(command_in(verb, tokens)?)),
    }
}

// How often a command is asked for, by the count before it.
fn times_named(tokens: &Tokens<'_>) -> Option<u32>
    ensures { result ≡ times_named (texts_of tokens.now) }
{
    if tokens.count.is_empty() {
        Some(1)
    } else {
        decimal_in(tokens.count, MOST_TIMES)
    }
}

/// Reads a line: a command after a count or none, its operands between blanks, and a comment from a `#` on.
pub fn line_in(line: &[u8]) -> Line
    ensures { IsLine (tokens_of line.now) result }
{
    let tokens = tokens_in(line);
    if tokens.verb.is_empty() {
        return Line::Nothing;
    }
    let Some(verb) = verb_in(tokens.verb) else {
        return Line::Unknown;
    };
    if times_named(&tokens).is_none() {
        return Line::Miscounted;
    }
    match line_by(verb, &tokens) {
        Some(line) => line,
        None => Line::Wants(verb),
    }
}

/// The line is a command, or asks for nothing.
pub(crate) fn is_command(line: Line) -> bool
    ensures { result ≡ is_command line }
{
    !matches!(line, Line::Unknown | Line::Miscounted | Line::Wants(_))
}

/// How often a line is done. Of one that is no command is told once.
pub(crate) fn times_in(line: &[u8], asked: Line) -> u32
    ensures { result ≡ times_of (tokens_of line.now) asked }
{
    if !is_command(asked) {
        return 1;
    }
    match times_named(&tokens_in(line)) {
        Some(times) => times,
        None => 1,
    }
}

fn is_question(command: Command) -> bool
    ensures { result ≡ is_question command }
{
    match command {
        Command::Look(_) | Command::Creator(_) | Command::Touched | Command::Info(_) => true,
        Command::Operand(_, _) | Command::Link(_, _) | Command::Station(_) => true,
        Command::Ring | Command::Report => true,
        _ => false,
    }
}

/// The line may change more than what was seen.
pub(crate) fn may_change(line: Line) -> bool
    ensures { result ≡ may_change line }
{
    match line {
        Line::Asks(command) => !is_question(command),
        Line::Turns(_) => true,
        _ => false,
    }
}

/// The line takes a command back.
pub(crate) fn is_undo(line: Line) -> bool
    ensures { result ≡ is_undo line }
{
    matches!(line, Line::Undo)
}

/// The line ends its script.
pub(crate) fn ends_script(line: Line) -> bool
    ensures { result ≡ ends_script line }
{
    matches!(line, Line::Quit)
}
