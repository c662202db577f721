//! Registers, by number and by name.
ghost use Rattle.std.specs.Prelude.{◌≡◌, map};
ghost use Rattle.std.specs.Map.{lookup};
ghost use Rattle.std.specs.Str.{bytes_eq};
ghost use Rattle.isa.specs.Reading.{Reads};
ghost use Rattle.isa.specs.RegisterNames.{register_number, register};

use super::fault::FaultKind;
use instructions::Reg;
use lexical::{decimal_in, first_is};

static NAMES: [(&str, u8); 33] = [
    ("zero", 0),
    ("at", 1),
    ("v0", 2),
    ("v1", 3),
    ("a0", 4),
    ("a1", 5),
    ("a2", 6),
    ("a3", 7),
    ("t0", 8),
    ("t1", 9),
    ("t2", 10),
    ("t3", 11),
    ("t4", 12),
    ("t5", 13),
    ("t6", 14),
    ("t7", 15),
    ("s0", 16),
    ("s1", 17),
    ("s2", 18),
    ("s3", 19),
    ("s4", 20),
    ("s5", 21),
    ("s6", 22),
    ("s7", 23),
    ("t8", 24),
    ("t9", 25),
    ("k0", 26),
    ("k1", 27),
    ("gp", 28),
    ("sp", 29),
    ("fp", 30),
    ("s8", 30),
    ("ra", 31),
];

// The register with a name, by the first row of a table that has it.
fn named_in(table: &[(&str, u8)], text: &[u8]) -> Option<u8>
    ensures { result ≡ lookup (λ k. bytes_eq k text.now) (map (λ e. (e.0.now, e.1)) table.now) }
{
    for entry in table {
        if entry.0.as_bytes() == text {
            return Some(entry.1);
        }
    }
    None
}

// The number of a register: 0 to 31 without leading zeros, or a name.
#[tactic(auto, unfolding(crate::specs::RegisterNames::register_number))]
fn register_number(text: &[u8]) -> Option<u8>
    ensures { result ≡ register_number text.now }
{
    match decimal_in(text, 31) {
        Some(n) => Some(n as u8),
        None => named_in(NAMES.as_slice(), text),
    }
}

/// The register of an operand: `$`, and a number or a name.
#[tactic(auto, unfolding(crate::specs::RegisterNames::register))]
pub fn register(text: &[u8]) -> Result<Reg, FaultKind>
    ensures { Reads (λ r. r) result (register text.now) }
{
    if !first_is(text, b'$') {
        return Err(FaultKind::BadOperands);
    }
    let (_, name) = text.split_at(1);
    let number = register_number(name).ok_or(FaultKind::BadRegister)?;
    Reg::general(number).ok_or(FaultKind::BadRegister)
}
