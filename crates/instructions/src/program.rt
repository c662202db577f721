//! A program: instructions, and the bytes with which data memory starts.
ghost use Rattle.std.specs.Prelude.{◌≡◌, ◌<◌, ◌≤◌, ◌%◌, ◌↔◌, IfOk, IsTrue, length, slice_index};
ghost use Rattle.instructions.specs.Programs.{Program as Text, instr_at, instr_of};

use crate::{Instr, Memory};
use std::alloc::Global;
use std::marker::Model;

/// The instructions of a listing, and the bytes with which its data memory starts. Instruction i
/// stands at address 0x00400000 + 4i; data memory is the bytes from 0 on, apart from the text.
#[derive(Drop)]
pub struct Program {
    code: Vec<Instr>,
    bytes: Vec<u8>,
}

impl Model for Program {
    ghost Value = { Text };

    ghost view = { λ p. record { code = p.code.items; bytes = p.bytes.items } };

    ghost invariant = { λ p. (length p.code.items ≤ 16384)
        × (length p.bytes.items ≤ 65536) × (length p.bytes.items % 4 ≡ 0) };
}

impl Program {
    /// The most instructions that a program can have.
    pub const MOST_INSTRUCTIONS: usize = 16_384;

    /// The most bytes that data memory can have.
    pub const MOST_BYTES: usize = 65_536;

    /// The address at which the text begins.
    pub const START: u32 = 0x0040_0000;

    /// Whether a program can have these numbers of instructions and of bytes of data memory: at most 16,384 and 65,536, and
    /// the bytes are whole words.
    pub fn fits(instructions: usize, bytes: usize) -> bool
        ensures { IsTrue result ↔ (instructions ≤ 16384) × ((bytes ≤ 65536) × (bytes % 4 ≡ 0)) }
    {
        instructions <= Program::MOST_INSTRUCTIONS && bytes <= Program::MOST_BYTES && bytes % 4 == 0
    }

    /// The program of these instructions, with these bytes of data, where it `fits`.
    pub fn new(code: Vec<Instr>, bytes: Vec<u8>) -> Program
        requires code { length code.items ≤ 16384 }
        requires bytes { length bytes.items ≤ 65536 }
        requires words { length bytes.items % 4 ≡ 0 }
        ensures { result ≡ record { code = code.items; bytes = bytes.items } }
    {
        Program { code, bytes }
    }

    /// A copy of the program, in memory of its own.
    pub fn copied(&self, alloc: Global) -> Result<Program, Memory>
        ensures same { IfOk result (λ p. p ≡ self.now) }
        ensures small { IfOk result (λ p. length p.code ≤ 16384) }
    {
        let code = self.code.as_slice().to_vec(alloc)?;
        let bytes = self.bytes.as_slice().to_vec(alloc)?;
        Ok(Program { code, bytes })
    }

    /// The number of instructions, at most 16,384.
    pub fn len(&self) -> usize
        ensures value { result ≡ length self.now.code }
        ensures small { result ≤ 16384 }
    {
        self.code.len()
    }

    /// Whether there is no instruction.
    pub fn is_empty(&self) -> bool
        ensures { IsTrue result ↔ (length self.now.code ≡ 0) }
    {
        self.code.is_empty()
    }

    /// Instruction `i`.
    pub fn instr(&self, i: usize) -> &Instr
        requires { i < length self.now.code }
        ensures { result.now ≡ instr_of self.now i }
    {
        &self.code[i]
    }

    /// The instruction at an address, if there is one.
    #[tactic(auto, unfolding(crate::specs::Programs::instr_at))]
    pub fn fetch(&self, pc: u32) -> Option<Instr>
        ensures { result ≡ instr_at self.now pc }
    {
        let offset = pc.wrapping_sub(Program::START);
        if offset % 4 == 0 {
            self.code.get((offset / 4) as usize).copied()
        } else {
            None
        }
    }

    /// The size of data memory in bytes: a multiple of 4, at most 65,536.
    pub fn size(&self) -> u32
        ensures value { result ≡ length self.now.bytes }
        ensures small { result ≤ 65536 }
        ensures words { result % 4 ≡ 0 }
    {
        self.bytes.len() as u32
    }

    /// The bytes with which data memory starts.
    pub fn bytes(&self) -> &[u8]
        ensures value { result.now ≡ self.now.bytes }
        ensures small { length self.now.bytes ≤ 65536 }
        ensures words { length self.now.bytes % 4 ≡ 0 }
    {
        self.bytes.as_slice()
    }

    /// The byte at `at` of the memory at the start.
    pub fn byte(&self, at: usize) -> u8
        requires { at < length self.now.bytes }
        ensures { result ≡ slice_index self.now.bytes at }
    {
        self.bytes[at]
    }
}
