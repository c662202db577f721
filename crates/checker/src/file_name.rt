//! The name of a file as it is shown: without control characters.
ghost use Rattle.std.specs.Prelude.{◌≡◌, ◌++◌, IfOk, OnOk, flat_map};
ghost use Rattle.checker.specs.Names.{name_text, shown_character};
ghost use Rattle.checker.specs.Spots.{escape};

use super::spot::escape;
use std::alloc::{AllocError, Global};

// Adds the escape of each byte.
fn push_escapes(text: &mut Vec<u8>, bytes: &[u8]) -> Result<(), AllocError>
    ensures { OnOk result (text.new.items ≡ text.old.items ++ flat_map escape bytes.now) }
{
    for byte in bytes {
        text.extend_from_slice(&escape(*byte))?;
    }
    Ok(())
}

// Adds a character as it is, or a control character by the escapes of its bytes.
fn push_character(text: &mut Vec<u8>, character: char) -> Result<(), AllocError>
    ensures { OnOk result (text.new.items ≡ text.old.items ++ shown_character character) }
{
    let mut room = [0; 4];
    let bytes = character.encode_utf8(&mut room).as_bytes();
    if character.is_control() {
        push_escapes(text, bytes)
    } else {
        text.extend_from_slice(bytes)
    }
}

/// The name of a file as it is shown.
pub(crate) fn shown_name(alloc: Global, file: &str) -> Result<Vec<u8>, AllocError>
    ensures { IfOk result (λ text. text.items ≡ name_text file.now) }
{
    let mut text = Vec::new(alloc);
    for character in file.chars() {
        push_character(&mut text, character)?;
    }
    Ok(text)
}
