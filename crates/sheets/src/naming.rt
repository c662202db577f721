//! What a row says of its instruction.
use crate::misread::Trouble;
use instructions::{Instr, Op, Program};
use isa::{FaultKind, forms, parse};
use lexical::{cut_word, next_label, number_in, trim};
use std::alloc::Global;

/// What a row says of its instruction.
#[derive(Clone, Copy)]
pub enum Named {
    Nothing,
    Pc(u32),
    /// The instruction of the program with this number.
    Same(usize),
    /// An operation alone: the labels of a branch are those of the listing.
    Operation(Op),
    /// The program has no such instruction.
    Unknown,
}

fn operation_in(word: &[u8]) -> Named {
    for form in forms() {
        if form.has_word(word) {
            return Named::Operation(form.op);
        }
    }
    Named::Unknown
}

// A statement after its labels.
fn unlabelled(text: &[u8]) -> &[u8] {
    match next_label(text) {
        Some((_, rest)) => rest,
        None => text,
    }
}

// The first instruction of a program that is the same.
fn same_in(program: &Program, instr: &Instr) -> Named {
    for at in 0..program.len() {
        if program.instr(at).is_same(instr) {
            return Named::Same(at);
        }
    }
    Named::Unknown
}

fn statement(alloc: Global, program: &Program, text: &[u8]) -> Result<Named, Trouble> {
    match parse(alloc, text) {
        Ok(row) if row.len() == 1 => Ok(same_in(program, row.instr(0))),
        Err(fault) if fault.kind == FaultKind::Memory && fault.line == 0 => Err(Trouble::Memory),
        _ => {
            let (word, _) = cut_word(trim(unlabelled(text)));
            Ok(operation_in(word))
        }
    }
}

/// What a cell says of the instruction of its row.
pub(crate) fn named_in(alloc: Global, program: &Program, cell: &[u8]) -> Result<Named, Trouble> {
    if cell.is_empty() || matches!(cell, b"-") {
        return Ok(Named::Nothing);
    }
    match number_in(cell, 0, 0xffff_ffff) {
        Some(pc) => Ok(Named::Pc(pc)),
        None => statement(alloc, program, cell),
    }
}

// The instruction at a pc is that with a number.
fn is_same(program: &Program, pc: u32, at: usize) -> bool {
    match program.fetch(pc) {
        Some(instr) => at < program.len() && program.instr(at).is_same(&instr),
        None => false,
    }
}

fn has_operation(program: &Program, pc: u32, op: Op) -> bool {
    match program.fetch(pc) {
        Some(instr) => instr.op() == op,
        None => false,
    }
}

impl Named {
    /// Whether the instruction at a pc of a program can be meant.
    pub fn agrees(self, program: &Program, pc: u32) -> bool {
        match self {
            Named::Nothing => true,
            Named::Pc(at) => at == pc,
            Named::Same(at) => is_same(program, pc, at),
            Named::Operation(op) => has_operation(program, pc, op),
            Named::Unknown => false,
        }
    }

    /// The pc of the first instruction of a program that it can be.
    pub(crate) fn first_in(self, program: &Program) -> Option<u32> {
        if let Named::Pc(pc) = self {
            return Some(pc);
        }
        let mut pc = Program::START;
        for _ in 0..program.len() {
            if self.agrees(program, pc) {
                return Some(pc);
            }
            pc = pc.wrapping_add(4);
        }
        None
    }
}
