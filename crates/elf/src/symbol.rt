//! The table of symbols, and the functions that it names.
ghost use Rattle.std.specs.Prelude.{◌≡◌, ◌≤◌, ◌+◌, ◌*◌, IfOk, IfSome, length, not, position};
ghost use Rattle.elf.specs.Symbols.{has_sections as has_sections_of, is_symbols as is_symbols_of, symbols_of, symbols_up_to, symbols_in as symbols_by, with_function, functions_up_to, functions_in, is_graphic as is_graphic_of, name_window as window_of, printable_at};

use crate::bytes::{half_at, word_at};
use crate::header::HEADER;
use crate::section::{SHT_SYMTAB, Section};
use std::alloc::{AllocError, Global};

/// The table of symbols: its place in the file, the number of symbols, and the place of their names.
#[derive(Clone, Copy)]
pub struct Symbols {
    pub at: u32,
    pub count: u32,
    pub names: u32,
}

/// A function: its address, and the place of its name in the file.
#[derive(Clone, Copy, Debug, PartialEq, Eq)]
pub struct Function {
    pub address: u32,
    pub name: usize,
}

/// The size of a section header in bytes.
const SECTION_HEADER: usize = 40;

/// The size of a symbol in bytes.
const SYMBOL: usize = 16;

/// The type of a symbol that is a function: the lower four bits of its info.
const STT_FUNC: u8 = 2;

/// The most bytes of a name.
const MOST_NAME: usize = 60;

fn has_sections(file: &[u8]) -> bool
    ensures value { result ≡ has_sections_of file.now }
{
    file.len() >= HEADER
        && half_at(file, 46) as usize == SECTION_HEADER
        && file.len() >= word_at(file, 32) as usize + SECTION_HEADER * half_at(file, 48) as usize
}

fn is_symbols(file: &[u8], count: usize, section: Section) -> bool
    ensures { result ≡ is_symbols_of file.now count section }
{
    section.kind == SHT_SYMTAB
        && (section.link as usize) < count
        && file.len() >= section.offset as usize + section.size as usize
}

// The last table of symbols, if the headers lead to one.
#[tactic(auto, unfolding(crate::specs::Symbols::symbols_in), using(crate::proofs::Tables::symbols_none, crate::proofs::Tables::symbols_next))]
fn symbols_in(file: &[u8]) -> Option<Symbols>
    ensures value { result ≡ symbols_by file.now }
    ensures inside { IfSome result (λ s. s.at + 16 * s.count ≤ length file.now) }
{
    if !has_sections(file) {
        return None;
    }
    let at = word_at(file, 32) as usize;
    let count = half_at(file, 48) as usize;
    let mut found = None;
    'sections: for k in 0..count {
        let section = Section::at(file, at + SECTION_HEADER * k);
        if is_symbols(file, count, section) {
            let names = Section::at(file, at + SECTION_HEADER * section.link as usize);
            found = Some(Symbols {
                at: section.offset,
                count: section.size / SYMBOL as u32,
                names: names.offset,
            });
        }
    }
    found
}

// The functions among the symbols of a table.
#[tactic(auto, using(crate::proofs::Tables::functions_none, crate::proofs::Tables::functions_next))]
fn functions_of(alloc: Global, file: &[u8], symbols: Symbols) -> Result<Vec<Function>, AllocError>
    requires { symbols.at + 16 * symbols.count ≤ length file.now }
    ensures { IfOk result (λ v. v.items
        ≡ functions_up_to file.now symbols.names symbols.at symbols.count) }
{
    let mut functions = Vec::new(alloc);
    'symbols: for k in 0..symbols.count as usize {
        let at = symbols.at as usize + SYMBOL * k;
        if file[at + 12] % 16 == STT_FUNC {
            functions.push(Function {
                address: word_at(file, at + 4),
                name: symbols.names as usize + word_at(file, at) as usize,
            })?;
        }
    }
    Ok(functions)
}

/// The functions that a file names, in the order of its table of symbols; none where its headers do
/// not lead to one. No byte outside the file is looked at.
#[tactic(auto, unfolding(crate::specs::Symbols::functions_in))]
pub fn read_functions(alloc: Global, file: &[u8]) -> Result<Vec<Function>, AllocError>
    ensures { IfOk result (λ v. v.items ≡ functions_in file.now) }
{
    match symbols_in(file) {
        Some(symbols) => functions_of(alloc, file, symbols),
        None => Ok(Vec::new(alloc)),
    }
}

fn is_graphic(b: u8) -> bool
    ensures { result ≡ is_graphic_of b }
{
    33 <= b && b <= 126
}

// The place at which a name ends, if there is one.
fn end_of(text: &[u8]) -> Option<usize>
    ensures { result ≡ position (λ b. not (is_graphic_of b)) text.now }
{
    text.iter().position(|b| !is_graphic(*b))
}

// The bytes from a place on, at most as many as a name has.
fn window(file: &[u8], at: usize) -> &[u8]
    ensures { result.now ≡ window_of file.now at }
{
    if file.len() < at {
        return &[];
    }
    let (_, rest) = file.split_at(at);
    if rest.len() < MOST_NAME {
        return rest;
    }
    let (name, _) = rest.split_at(MOST_NAME);
    name
}

/// The name that begins at a place of the file: printable characters, at most 60.
pub fn name_at(file: &[u8], at: usize) -> &[u8]
    ensures { result.now ≡ printable_at file.now at }
{
    let text = window(file, at);
    match end_of(text) {
        Some(end) => {
            let (name, _) = text.split_at(end);
            name
        }
        None => text,
    }
}
