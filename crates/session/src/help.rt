//! The commands, as they are told to who asks for them.
ghost use Rattle.std.specs.Prelude.{◌≡◌, IfOk, string_bytes};

use std::alloc::{AllocError, Global};

/// What the letters of operands stand for, and a line for each command.
pub const HELP: &str = "\
U is a unit, A to Z or AA to BL; S a station; K 1 or 2; R a register; PC an address; N a number
turn          lets the next instruction
turn PC       lets it with the guess PC, where the predictor would be asked for its next pc
recover       repairs the oldest misprediction
claim U S     unit U claims the tenant of station S
finish U S    unit U finishes its job of station S
refresh       lets the oldest load go on that can
refresh S     lets the load of station S go on, if it can
commit        retires the oldest tenant
station S     all that is told of station S
operand S K   operand K of station S, or whom it waits for
link S K      the producer of operand K of station S, by the link words
look S        the word of station S
info S        the info word of station S
creator R     who makes register R: a name of listings, or its number, 32 for lo, 33 for hi
ring          the oldest tenant's station, the next one's, and the next pc
queue         the loads and stores in flight: address, data, and what blocks a load
step N        turns of the one-thread unit, until N instructions have retired, 1000000 turns at most
until PC      turns, until the instruction at PC is the next to retire
until EVENT   turns, up to the next EVENT: blocked (a load), misprediction or stale (a result)
N COMMAND     the command N times, at most 1000
undo          takes back the last command that is no question
table         a line for each station that is not free, the create vector, the ring
report        the committed state, as a run reports it
show          the back shows a snapshot
take          a snapshot that was shown is taken
learn         the snapshot reader learns of the snapshot shown last
rest          the front folds what has left
renew         a new core with fresh tags, behind a rest
touched       how many words of the create vector were touched
meet X Y      two of front, back and units tell each other what they have seen
list          the instructions of the program
help          these lines
quit          ends the script
";

/// The text of `HELP`.
pub(crate) fn help(alloc: Global) -> Result<String, AllocError>
    ensures { IfOk result (λ text. string_bytes text ≡ HELP.now) }
{
    format!(in alloc; "{HELP}")
}
