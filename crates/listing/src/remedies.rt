//! What avoids a refusal.

use disassembly::{Foreign, Refusal};
use elf::Refusal as FileRefusal;

const LINKED: &str = "link it by examples/c/compile.sh";

// What avoids a word that is no operation.
fn of_word(what: Foreign) -> &'static str {
    match what {
        Foreign::Syscall => "there is no system to call: leave it out, and end by break",
        Foreign::Break => "compile with -mno-check-zero-division",
        Foreign::Bltzal | Foreign::Bgezal => "compile with -mno-abicalls -fno-pic",
        Foreign::Lwl | Foreign::Lwr | Foreign::Swl | Foreign::Swr => {
            "compile with -fno-store-merging -fno-expensive-optimizations, and without packed structures"
        }
        Foreign::Coprocessor => "compile with -msoft-float",
        Foreign::Unknown => "compile with -march=mips1 -mno-check-zero-division",
    }
}

// What avoids the refusal of a file.
fn of_file(why: FileRefusal) -> Option<&'static str> {
    match why {
        FileRefusal::NotElf | FileRefusal::Kind | FileRefusal::NoText => Some(LINKED),
        FileRefusal::Class | FileRefusal::ByteOrder | FileRefusal::Machine => {
            Some("compile with mipsel-linux-gnu-gcc -march=mips1")
        }
        FileRefusal::Entry { .. } | FileRefusal::Segment { .. } => {
            Some("link it by examples/c/link.ld")
        }
        _ => None,
    }
}

/// The flag or change that avoids a refusal, if there is one.
pub(crate) fn remedy_of(why: Refusal) -> Option<&'static str> {
    match why {
        Refusal::File { why } => of_file(why),
        Refusal::Word { what, .. } => Some(of_word(what)),
        Refusal::Target { .. } => Some("link all of it into one text, by examples/c/link.ld"),
        Refusal::Slot { .. } => Some(
            "compile with -fno-delayed-branch; in assembly write nop there",
        ),
        Refusal::NoSlot { .. } => Some("write nop after it"),
        Refusal::Memory => None,
    }
}
