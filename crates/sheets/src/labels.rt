//! Labels of instructions in a log.
use instructions::{Instr, Program};
use lexical::{cut, cut_word, number_in, trim};

/// Where an instruction stands, and how many dispatches it is.
#[derive(Clone, Copy)]
pub(crate) struct Labelled {
    pub(crate) pc: u32,
    pub(crate) halves: usize,
}

fn halves_of(instr: Option<Instr>, text: &[u8]) -> usize {
    match instr {
        Some(instr) if instr.op().is_pair() && !text.ends_with(b" lo") && !text.ends_with(b" hi") =>
            2,
        _ => 1,
    }
}

/// The address with which a label begins; a half of a multiplication or division has `lo` or `hi` at its end.
pub(crate) fn label_in(program: &Program, text: &[u8]) -> Option<Labelled> {
    let text = trim(text);
    let (word, _) = cut_word(text);
    let (address, _) = cut(word, b':');
    let pc = number_in(address, 0, 0xffff_ffff)?;
    let halves = halves_of(program.fetch(pc), text);
    Some(Labelled { pc, halves })
}
