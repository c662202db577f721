//! The image that a file loads.
ghost use Rattle.std.specs.Prelude.{◌≡◌, ◌≢◌, ◌≤◌, ◌<◌, ◌+◌, ◌*◌, Ok, Err, length, IfOk, IfErr, IsTrue};
ghost use Rattle.elf.specs.Images.{Loaded, nothing_loaded};
ghost use Rattle.elf.specs.Placing.{overlaid as overlaid_with, is_text as is_text_of, with_text as with_text_of, with_data as with_data_of, placed as placed_with, placed_up_to, loaded_from};

use crate::Refusal;
use crate::bytes::{words, zeros};
use crate::header::{PROGRAM_HEADER, Table, table_of};
use crate::segment::{PT_LOAD, Segment};
use instructions::Program;
use std::alloc::{AllocError, Global};
use std::marker::Model;

/// The words of a text that begins at 0x00400000, and the bytes of data memory.
#[derive(Drop)]
pub struct Image {
    code: Vec<u32>,
    bytes: Vec<u8>,
}

impl Model for Image {
    ghost Value = { Loaded };

    ghost view = { λ i. record { code = i.code.items; bytes = i.bytes.items } };

    ghost invariant = { λ i. (length i.code.items ≤ 16384) × (length i.bytes.items ≡ 65536) };
}

impl Image {
    /// The words of the text, at most 16,384.
    pub fn code(&self) -> &[u32]
        ensures value { result.now ≡ self.now.code }
        ensures small { length self.now.code ≤ 16384 }
    {
        self.code.as_slice()
    }

    /// The bytes of data memory, 65,536 of them.
    pub fn bytes(&self) -> &[u8]
        ensures value { result.now ≡ self.now.bytes }
        ensures size { length self.now.bytes ≡ 65536 }
    {
        self.bytes.as_slice()
    }

    // The image before any segment is loaded.
    fn nothing(alloc: Global) -> Result<Image, AllocError>
        ensures { IfOk result (λ image. image ≡ nothing_loaded) }
    {
        let bytes = zeros(alloc, Program::MOST_BYTES)?;
        Ok(Image {
            code: Vec::new(alloc),
            bytes,
        })
    }
}

// Bytes with others written over them, from a place on.
fn overlaid(alloc: Global, below: &[u8], at: usize, bytes: &[u8]) -> Result<Vec<u8>, AllocError>
    requires { at + length bytes.now ≤ length below.now }
    ensures value { IfOk result (λ v. v.items ≡ overlaid_with below.now at bytes.now) }
    ensures length { IfOk result (λ v. length v.items ≡ length below.now) }
{
    let (front, rest) = below.split_at(at);
    let (_, behind) = rest.split_at(bytes.len());
    let mut all = Vec::with_capacity(alloc, below.len())?;
    all.extend_from_slice(front)?;
    all.extend_from_slice(bytes)?;
    all.extend_from_slice(behind)?;
    Ok(all)
}

// Whether a segment is the text: the only one, of whole words, all of them in the file.
fn is_text(segment: Segment, image: &Image) -> bool
    ensures value { result ≡ is_text_of segment image.now }
    ensures small { IsTrue result → segment.size ≤ 65536 }
{
    image.code.is_empty()
        && segment.filled == segment.size
        && segment.size % 4 == 0
        && segment.size as usize <= 4 * Program::MOST_INSTRUCTIONS
}

#[tactic(auto, unfolding(crate::specs::Placing::with_text))]
fn with_text(alloc: Global, file: &[u8], segment: Segment, image: Image) -> Result<Image, Refusal>
    requires { segment.offset + segment.filled ≤ length file.now }
    ensures ok { IfOk result (λ i. with_text_of file.now segment image ≡ Ok i) }
    ensures fault { IfErr result (λ e. e ≢ Refusal.Memory
        → with_text_of file.now segment image ≡ Err e) }
{
    if !is_text(segment, &image) {
        return Err(Refusal::Segment {
            address: segment.address,
        });
    }
    let code = words(
        alloc,
        file,
        segment.offset as usize,
        segment.size as usize / 4,
    )?;
    Ok(Image {
        code,
        bytes: image.bytes,
    })
}

#[tactic(auto, unfolding(crate::specs::Placing::with_data))]
fn with_data(alloc: Global, file: &[u8], segment: Segment, image: Image) -> Result<Image, Refusal>
    requires { segment.offset + segment.filled ≤ length file.now }
    ensures ok { IfOk result (λ i. with_data_of file.now segment image ≡ Ok i) }
    ensures fault { IfErr result (λ e. e ≢ Refusal.Memory
        → with_data_of file.now segment image ≡ Err e) }
{
    let at = segment.address as usize;
    if Program::MOST_BYTES < at + segment.size as usize || segment.size < segment.filled {
        return Err(Refusal::Segment {
            address: segment.address,
        });
    }
    let from = segment.offset as usize;
    let filled = &file[from..from + segment.filled as usize];
    let bytes = overlaid(alloc, image.bytes.as_slice(), at, filled)?;
    Ok(Image {
        code: image.code,
        bytes,
    })
}

// Loads one more segment.
#[tactic(auto, unfolding(crate::specs::Placing::placed))]
fn placed(alloc: Global, file: &[u8], segment: Segment, image: Image) -> Result<Image, Refusal>
    ensures ok { IfOk result (λ i. placed_with file.now segment image ≡ Ok i) }
    ensures fault { IfErr result (λ e. e ≢ Refusal.Memory
        → placed_with file.now segment image ≡ Err e) }
{
    if segment.kind != PT_LOAD || segment.size == 0 {
        return Ok(image);
    }
    if file.len() < segment.offset as usize + segment.filled as usize {
        return Err(Refusal::Cut);
    }
    if segment.address == Program::START {
        with_text(alloc, file, segment, image)
    } else {
        with_data(alloc, file, segment, image)
    }
}

#[tactic(auto, using(crate::proofs::Steps::placed_none, crate::proofs::Steps::placed_next, crate::proofs::Steps::refused_by_one))]
fn all_placed(alloc: Global, file: &[u8], table: Table) -> Result<Image, Refusal>
    requires { table.at + 32 * table.count ≤ length file.now }
    ensures ok { IfOk result (λ i. placed_up_to file.now table.at table.count ≡ Ok i) }
    ensures fault { IfErr result (λ e. e ≢ Refusal.Memory
        → placed_up_to file.now table.at table.count ≡ Err e) }
{
    let mut image = Image::nothing(alloc)?;
    'segments: for k in 0..table.count as usize {
        let segment = Segment::at(file, table.at as usize + PROGRAM_HEADER * k);
        image = placed(alloc, file, segment, image)?;
    }
    Ok(image)
}

/// The image that a file loads, or its refusal. No byte outside the file is looked at, whatever
/// its headers say.
#[tactic(auto, unfolding(crate::specs::Placing::loaded_from))]
pub fn read_image(alloc: Global, file: &[u8]) -> Result<Image, Refusal>
    ensures ok { IfOk result (λ i. loaded_from file.now ≡ Ok i) }
    ensures fault { IfErr result (λ e. e ≢ Refusal.Memory → loaded_from file.now ≡ Err e) }
{
    let table = table_of(file)?;
    let image = all_placed(alloc, file, table)?;
    if image.code.is_empty() {
        return Err(Refusal::NoText);
    }
    Ok(image)
}
