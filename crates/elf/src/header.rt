//! The header of an ELF32 file.
ghost use Rattle.std.specs.Prelude.{◌≡◌, ◌≤◌, ◌+◌, ◌*◌, IfOk, length};
ghost use Rattle.elf.specs.Headers.{has_magic as has_magic_of, unfit as unfit_of, table_in as table_inside, table_of as table_by};

use crate::Refusal;
use crate::bytes::{half_at, word_at};
use instructions::Program;

/// The table of program headers: its place in the file, and the number of headers. Each has 32 bytes.
#[derive(Clone, Copy)]
pub struct Table {
    pub at: u32,
    pub count: u32,
}

/// The size of the header of a file in bytes.
pub(crate) const HEADER: usize = 52;

/// The size of a program header in bytes.
pub(crate) const PROGRAM_HEADER: usize = 32;

/// The first four bytes of a file: 0x7f and `ELF`.
const ELFMAG: u32 = 0x464c_457f;

/// The place of the class in a file.
const EI_CLASS: usize = 4;

/// The class of files of 32 bits.
const ELFCLASS32: u8 = 1;

/// The place of the byte order in a file.
const EI_DATA: usize = 5;

/// The byte order of files whose numbers have the lowest byte first.
const ELFDATA2LSB: u8 = 1;

/// The kind of executables.
const ET_EXEC: u32 = 2;

/// The machine MIPS.
const EM_MIPS: u32 = 8;

fn has_magic(file: &[u8]) -> bool
    ensures { result ≡ has_magic_of file.now }
{
    if file.len() < 4 {
        return false;
    }
    word_at(file, 0) == ELFMAG
}

#[tactic(auto, unfolding(crate::specs::Headers::unfit))]
fn unfit(file: &[u8]) -> Option<Refusal>
    requires { 52 ≤ length file.now }
    ensures { result ≡ unfit_of file.now }
{
    if file[EI_CLASS] != ELFCLASS32 {
        return Some(Refusal::Class);
    }
    if file[EI_DATA] != ELFDATA2LSB {
        return Some(Refusal::ByteOrder);
    }
    if half_at(file, 16) != ET_EXEC {
        return Some(Refusal::Kind);
    }
    if half_at(file, 18) != EM_MIPS {
        return Some(Refusal::Machine);
    }
    None
}

#[tactic(auto, unfolding(crate::specs::Headers::table_in))]
fn table_in(file: &[u8]) -> Result<Table, Refusal>
    requires { 52 ≤ length file.now }
    ensures value { result ≡ table_inside file.now }
    ensures inside { IfOk result (λ table. table.at + 32 * table.count ≤ length file.now) }
{
    let address = word_at(file, 24);
    if address != Program::START {
        return Err(Refusal::Entry { address });
    }
    if half_at(file, 42) as usize != PROGRAM_HEADER {
        return Err(Refusal::Headers);
    }
    let at = word_at(file, 28);
    let count = half_at(file, 44);
    if file.len() < at as usize + PROGRAM_HEADER * count as usize {
        return Err(Refusal::Cut);
    }
    Ok(Table { at, count })
}

/// The program headers of a file.
#[tactic(auto, unfolding(crate::specs::Headers::table_of))]
pub fn table_of(file: &[u8]) -> Result<Table, Refusal>
    ensures value { result ≡ table_by file.now }
    ensures inside { IfOk result (λ table. table.at + 32 * table.count ≤ length file.now) }
{
    if !has_magic(file) {
        return Err(Refusal::NotElf);
    }
    if file.len() < HEADER {
        return Err(Refusal::Cut);
    }
    if let Some(refusal) = unfit(file) {
        return Err(refusal);
    }
    table_in(file)
}
