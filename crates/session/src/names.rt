//! The names of units, of those that meet, and of registers.
ghost use Rattle.std.specs.Prelude.{◌≡◌, ◌<◌, ◌≤◌, IfNone, IfSome};
ghost use Rattle.instructions.specs.Registers.{register_count};
ghost use Rattle.isa.specs.RegisterNames.{register};
ghost use Rattle.session.specs.Commands.{party_of, read_number, register_of};
ghost use Rattle.session.specs.Units.{both_letters, letter, unit_count, unit_named};

use instructions::Reg;
use isa::register_in as listed_register;
use lexical::decimal_in;
use std::fmt;

/// How many units there can be.
pub const UNITS: usize = 64;

fn letter(b: u8) -> Option<usize>
    ensures place { result ≡ letter b }
    ensures small { IfSome result (λ n. n < 26) }
{
    if b'A' <= b && b <= b'Z' {
        Some((b - b'A') as usize)
    } else if b'a' <= b && b <= b'z' {
        Some((b - b'a') as usize)
    } else {
        None
    }
}

fn both_letters(first: Option<usize>, second: Option<usize>) -> Option<usize>
    requires first { IfSome first (λ n. n < 26) }
    requires second { IfSome second (λ n. n < 26) }
    ensures { result ≡ both_letters first second }
{
    let at = 26 * (first? + 1) + second?;
    if at < UNITS { Some(at) } else { None }
}

/// The place of the unit with this name, from 0 on: A to Z, and then AA to BL, in capitals or small letters.
pub fn unit_in(name: &[u8]) -> Option<usize>
    ensures place { result ≡ unit_named name.now }
    ensures small { IfSome result (λ at. at < unit_count) }
{
    match name {
        [a] => letter(*a),
        [a, b] => both_letters(letter(*a), letter(*b)),
        _ => None,
    }
}

/// One that can meet another: the front, the back, or a unit by its place.
#[derive(Clone, Copy, PartialEq, Eq)]
pub enum Party {
    Front,
    Back,
    Unit(usize),
}

/// The one with this name: `front`, `back`, or that of a unit.
pub(crate) fn party_in(name: &[u8]) -> Option<Party>
    ensures { result ≡ party_of name.now }
{
    if name == b"front".as_slice() {
        Some(Party::Front)
    } else if name == b"back".as_slice() {
        Some(Party::Back)
    } else {
        Some(Party::Unit(unit_in(name)?))
    }
}

fn capital(at: usize) -> char
    requires { at < 26 }
{
    char::from(b'A' + at as u8)
}

/// The name of the unit at a place.
#[derive(Clone, Copy)]
pub(crate) struct UnitName(pub usize);

impl fmt::Display for UnitName {
    fn fmt<W: fmt::Write>(&self, f: &mut fmt::Formatter<W>) -> fmt::Result {
        let at = self.0 % UNITS;
        if at < 26 {
            write!(f, "{}", capital(at))
        } else {
            write!(f, "{}{}", capital(at / 26 - 1), capital(at % 26))
        }
    }
}

// The number of the register that a listing names so.
fn listed_number(text: &[u8]) -> Option<u32>
    ensures { result ≡ read_number (register text.now) }
{
    match listed_register(text) {
        Ok(named) => Some(u32::from(named.number())),
        Err(_) => None,
    }
}

/// The number that a text has for a register: itself, or that of a name which listings take.
pub(crate) fn register_in(text: &[u8]) -> Option<u32>
    ensures { result ≡ register_of text.now }
{
    match decimal_in(text, 0xffff_ffff) {
        Some(number) => Some(number),
        None => listed_number(text),
    }
}

/// The register with this number, if there is one.
pub(crate) fn register_of(number: u32) -> Option<Reg>
    ensures some { IfSome result (λ r. r ≡ number) }
    ensures none { IfNone result (register_count ≤ number) }
{
    let small = u8::try_from(number).ok()?;
    Reg::new(small)
}
