//! Section headers.
ghost use Rattle.std.specs.Prelude.{◌≡◌, ◌≤◌, ◌+◌, length};
ghost use Rattle.elf.specs.Symbols.{section_of};

use crate::bytes::word_at;

/// The kind of a section that is a table of symbols.
pub(crate) const SHT_SYMTAB: u32 = 2;

/// The header of a section.
#[derive(Clone, Copy)]
pub struct Section {
    pub kind: u32,
    /// The place in the file at which the section begins.
    pub offset: u32,
    pub size: u32,
    /// The number of another section: for symbols, that of their names.
    pub link: u32,
}

impl Section {
    /// The section header at a place of the file.
    pub fn at(file: &[u8], at: usize) -> Section
        requires { at + 40 ≤ length file.now }
        ensures { result ≡ section_of file.now at }
    {
        Section {
            kind: word_at(file, at + 4),
            offset: word_at(file, at + 16),
            size: word_at(file, at + 20),
            link: word_at(file, at + 24),
        }
    }
}
