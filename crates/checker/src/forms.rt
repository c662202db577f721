//! The forms of an operation.

use isa::{Operands, Slot, directive_text, form_of, forms};
use std::alloc::{AllocError, Global};

/// A line with the forms of a word, in letters of either case, if it has some.
pub(crate) fn forms_text(alloc: Global, word: &[u8]) -> Result<String, AllocError> {
    if let Some(form) = directive_text(word) {
        return format!(in alloc; "The form is {form}.\n");
    }
    let mut text = String::new(alloc);
    for form in forms() {
        if form.has_word(word) {
            let lead = if text.is_empty() {
                "The form is "
            } else {
                " or "
            };
            let (word, operands) = (form.word, form.operands.text());
            text.push_str(format!(in alloc; "{lead}{word} {operands}")?.as_str())?;
        }
    }
    if !text.is_empty() {
        text.push_str(".\n")?;
    }
    Ok(text)
}

/// Whether a form of the word has an offset with a register: such a form has two operands.
pub(crate) fn has_offset(word: &[u8]) -> bool {
    match form_of(word, 2) {
        Ok(form) => matches!(form.operands, Operands::Load | Operands::Store),
        Err(_) => false,
    }
}

/// Whether this operand of a word with n operands, counted from 0, is a label.
pub(crate) fn takes_label(word: &[u8], count: usize, at: usize) -> bool {
    match form_of(word, count) {
        Ok(form) => matches!(form.operands.slots().get(at), Some(Slot::Label)),
        Err(_) => false,
    }
}
