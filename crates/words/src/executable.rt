//! The executable of a program.
ghost use Rattle.std.specs.Prelude.{◌≡◌, ◌++◌, ◌-◌, ◌≤◌, IfOk, IsTrue, length, replicate};
ghost use Rattle.words.specs.Encoded.{SayAll};
ghost use Rattle.words.specs.Executables.{IsExecutableOf};

use crate::no_words::NoWords;
use disassembly::instructions;
use elf::{Image, read_image};
use instructions::Program;
use std::alloc::{AllocError, Global};

/// The first bytes of a file: ELF, 32 bits, little endian.
const MAGIC: &[u8] = b"\x7fELF\x01\x01\x01\0\0\0\0\0\0\0\0\0";

/// What a segment's place in the file is a multiple of, so that a system can map it.
const PAGE: usize = 0x1_0000;

/// Where data begins in the file: a text has no more than a page.
const DATA: usize = 2 * PAGE;

/// The kind of a segment that is loaded.
const LOADED: u32 = 1;

const READ_AND_RUN: u32 = 5;

const READ_AND_WRITE: u32 = 6;

fn push_words(file: &mut Vec<u8>, words: &[u32]) -> Result<(), AllocError> {
    'words: for word in words {
        file.extend_from_slice(word.to_le_bytes().as_slice())?;
    }
    Ok(())
}

// Adds the header of a segment that the file has from a place on.
fn push_segment(
    file: &mut Vec<u8>,
    place: u32,
    address: u32,
    size: u32,
    flags: u32,
) -> Result<(), AllocError> {
    let page = PAGE as u32;
    let header = [LOADED, place, address, address, size, size, flags, page];
    push_words(file, header.as_slice())
}

// The header of an ELF32 file for little endian MIPS, with two segments and no sections.
fn push_header(file: &mut Vec<u8>) -> Result<(), AllocError> {
    file.extend_from_slice(MAGIC)?;
    let header = [
        0x0008_0002,
        1,
        Program::START,
        52,
        0,
        0x1000,
        0x0020_0034,
        2,
        0,
    ];
    push_words(file, header.as_slice())
}

// The bytes of an executable with these words and bytes of data.
fn file_of(alloc: Global, words: &[u32], bytes: &[u8]) -> Result<Vec<u8>, AllocError>
    requires words { length words.now ≤ 16384 }
    requires bytes { length bytes.now ≤ 65536 }
{
    let size = 4 * words.len();
    let mut file = Vec::with_capacity(alloc, DATA + bytes.len())?;
    push_header(&mut file)?;
    push_segment(
        &mut file,
        PAGE as u32,
        Program::START,
        size as u32,
        READ_AND_RUN,
    )?;
    push_segment(
        &mut file,
        DATA as u32,
        0,
        bytes.len() as u32,
        READ_AND_WRITE,
    )?;
    file.resize(PAGE, 0)?;
    push_words(&mut file, words)?;
    file.resize(DATA, 0)?;
    file.extend_from_slice(bytes)?;
    Ok(file)
}

// All of data memory, where bytes of 0 follow these.
fn padded(alloc: Global, bytes: &[u8]) -> Result<Vec<u8>, AllocError>
    requires { length bytes.now ≤ 65536 }
    ensures { IfOk result (λ all. all.items
        ≡ bytes.now ++ replicate (65536 - length bytes.now) 0) }
{
    let mut all = Vec::from_slice(alloc, bytes)?;
    all.resize(Program::MOST_BYTES, 0)?;
    Ok(all)
}

// Whether a file was loaded as these words and these bytes.
fn has_loaded(image: &Image, words: &[u32], bytes: &[u8]) -> bool
    ensures { IsTrue result → (image.now.code ≡ words.now) × (image.now.bytes ≡ bytes.now) }
{
    image.code() == words && image.bytes() == bytes
}

/// The executable of a program with these words. It was read back, and means the program.
pub fn executable(alloc: Global, program: &Program, words: &[u32]) -> Result<Vec<u8>, NoWords>
    requires words { SayAll words.now program.now.code }
    requires few { length words.now ≤ 16384 }
    ensures { IfOk result (λ file. IsExecutableOf program.now file.items) }
{
    let file = file_of(alloc, words, program.bytes())?;
    let image = read_image(alloc, file.as_slice())?;
    let _code = instructions(alloc, image.code())?;
    let memory = padded(alloc, program.bytes())?;
    if has_loaded(&image, words, memory.as_slice()) {
        Ok(file)
    } else {
        Err(NoWords::Differs)
    }
}
