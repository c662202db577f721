//! The lines of a listing, and instructions with their registers as these lines write them.

use instructions::{Half, Instr, Program};
use isa::{InstrText, RegisterStyle, register_in};
use lexical::before_comment;
use one_thread::Station;
use std::alloc::{AllocError, Global};
use std::str;

/// The lines of a listing without comments, the number of the line of each instruction, and the way in which most registers
/// are written.
#[derive(Drop)]
pub struct Source<'a> {
    naming: RegisterStyle,
    lines: Vec<&'a [u8]>,
    numbers: Vec<u64>,
}

impl<'a> Source<'a> {
    /// The source of a listing whose instructions are those of lines with these numbers.
    pub(crate) fn new(
        alloc: Global,
        bytes: &'a [u8],
        numbers: Vec<u64>,
    ) -> Result<Source<'a>, AllocError> {
        let each = bytes
            .split(|byte| *byte == b'\n')
            .map(|line| before_comment(line));
        let lines: Vec<&'a [u8]> = each.collect(alloc)?;
        Ok(Source {
            naming: naming_of(lines.as_slice()),
            lines,
            numbers,
        })
    }

    // The line of the instruction at a pc, if there is one.
    fn line_at(&self, pc: u32) -> Option<&'a [u8]> {
        let i = pc.saturating_sub(Program::START) / 4;
        let number = self.numbers.get(i as usize).copied()?;
        self.lines.get((number as usize).saturating_sub(1)).copied()
    }

    /// The instruction of a tenant, or its half, with each register as its line writes it; one that the line does not name
    /// is written as most are.
    pub(crate) fn text_of(&self, alloc: Global, station: &Station) -> Result<String, AllocError> {
        let naming = self.naming;
        let instr = station.instr.to_instr();
        let half = half_text(&instr, station.half);
        let instr = InstrText { naming, instr };
        let text = format!(in alloc; "{instr}")?;
        let names = names_in(alloc, self.line_at(station.pc).unwrap_or(&[]))?;
        let bytes = with_names(alloc, names.as_slice(), text.as_str().as_bytes())?;
        let named = str::from_utf8(bytes.as_slice()).unwrap_or(text.as_str());
        format!(in alloc; "{named}{half}")
    }
}

// By names, where more registers have one than a number.
fn naming_of(lines: &[&[u8]]) -> RegisterStyle {
    let (mut names, mut numbers) = (0u64, 0u64);
    for line in lines.iter() {
        for pair in line.windows(2) {
            match pair {
                [b'$', b'a'..=b'z'] => names = names.saturating_add(1),
                [b'$', b'0'..=b'9'] => numbers = numbers.saturating_add(1),
                _ => {}
            }
        }
    }
    if numbers < names {
        RegisterStyle::Names
    } else {
        RegisterStyle::Numbers
    }
}

// The label of a half, where an instruction has two.
fn half_text(instr: &Instr, half: Half) -> &'static str {
    match half {
        Half::High => " hi",
        Half::Low if instr.is_first_half(Half::Low) => " lo",
        Half::Low => "",
    }
}

// Words consist of letters, digits and `$`.
fn ends_word(byte: u8) -> bool {
    !byte.is_ascii_alphanumeric() && byte != b'$'
}

// The words of a text that name registers.
fn names_in(alloc: Global, text: &[u8]) -> Result<Vec<&[u8]>, AllocError> {
    let words = text.split(|byte| ends_word(*byte));
    words
        .filter(|word| register_in(word).is_ok())
        .collect(alloc)
}

// A text with each register as a line of these names writes it.
fn with_names(alloc: Global, names: &[&[u8]], text: &[u8]) -> Result<Vec<u8>, AllocError> {
    let mut out = Vec::new(alloc);
    let mut at = 0usize;
    for part in text.split_inclusive(|byte| ends_word(*byte)) {
        let (word, gap) = split_word(part);
        out.extend_from_slice(name_for(names, at, word).unwrap_or(word))?;
        out.extend_from_slice(gap)?;
        if register_in(word).is_ok() {
            at = at.saturating_add(1);
        }
    }
    Ok(out)
}

// A word, and the text after it.
fn split_word(text: &[u8]) -> (&[u8], &[u8]) {
    match text.iter().position(|byte| ends_word(*byte)) {
        None => (text, &[]),
        Some(at) => text.split_at(at),
    }
}

// A line's name of a word's register, if it has one: the name at the word's place among registers, or else the first.
fn name_for<'a>(names: &[&'a [u8]], at: usize, word: &[u8]) -> Option<&'a [u8]> {
    let register = register_in(word).ok()?;
    let mut all = names.iter().skip(at).take(1).chain(names.iter());
    all.find(|name| register_in(name) == Ok(register)).copied()
}
