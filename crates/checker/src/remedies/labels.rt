//! Remedies of labels that stand twice, or nowhere.

use super::sentences::{Case, Told, said};
use super::words::is_one_away;
use isa::Spot;
use lexical::{before_comment, next_label, next_line};
use std::alloc::{AllocError, Global};

// How a label is like a name.
#[derive(Clone, Copy)]
enum Likeness {
    Same,
    InAnyCase,
    OneAway,
}

// The first label of some code that is like a name.
fn label_like<'a>(
    alloc: Global,
    code: &'a [u8],
    name: &[u8],
    likeness: Likeness,
) -> Result<Option<&'a [u8]>, AllocError> {
    let mut rest = code;
    while let Some((label, behind)) = next_label(rest) {
        let is_like = match likeness {
            Likeness::Same => label == name,
            Likeness::InAnyCase => label.eq_ignore_ascii_case(name),
            Likeness::OneAway => is_one_away(alloc, label, name)?,
        };
        if is_like {
            return Ok(Some(label));
        }
        rest = behind;
    }
    Ok(None)
}

impl Case<'_> {
    // A sentence with the first label that is like a name, and with its line.
    fn told_like(&self, name: &[u8], likeness: Likeness, sentence: &'static str) -> Told {
        let mut number = 0u64;
        let mut rest = Some(self.bytes);
        while let Some(text) = rest {
            let (line, after) = next_line(text);
            number = number.wrapping_add(1);
            if let Some(label) = label_like(self.alloc, before_comment(line), name, likeness)? {
                let remedy = said(sentence)
                    .naming(label)
                    .counting([number.cast_signed(), 0]);
                return self.told(Some(remedy));
            }
            rest = after;
        }
        Ok(None)
    }

    /// The remedy of a label that stands twice: the line of the first place.
    pub(crate) fn double_label(&self, at: Spot) -> Told {
        let part = self.parts.marked(at);
        let name = &self.parts.line[part.from..part.to];
        let sentence = "Write another name: @4 stands first in line @6.";
        self.told_like(name, Likeness::Same, sentence)
    }

    /// The remedy of a label that stands nowhere: one that differs in the case of its letters, or in one letter.
    pub(crate) fn unknown_label(&self) -> Told {
        let name = self.statement.last();
        let sentence = "Write @4, as in line @6: the case of letters counts.";
        let found = self.told_like(name, Likeness::InAnyCase, sentence)?;
        if found.is_some() {
            return Ok(found);
        }
        self.told_like(
            name,
            Likeness::OneAway,
            "Is @4 meant, which stands in line @6?",
        )
    }
}
