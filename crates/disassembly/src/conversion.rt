//! From the bytes of an executable to a listing.
ghost use Rattle.std.specs.Prelude.{◌≡◌, ◌≢◌, Err, IfOk, IfErr, string_bytes};
ghost use Rattle.disassembly.specs.Conversion.{IsSaid, program_in};

use crate::Refusal;
use crate::meaning::instructions;
use crate::writing::text_of;
use elf::{read_functions, read_image};
use std::alloc::Global;

/// The listing of an executable, or the refusal. `parse` gives of the listing exactly the program
/// that the words and bytes of the file mean.
pub fn listing_of(alloc: Global, file: &[u8]) -> Result<String, Refusal>
    ensures ok { IfOk result (λ text. IsSaid file.now (string_bytes text)) }
    ensures fault { IfErr result (λ e. e ≢ Refusal.Memory → program_in file.now ≡ Err e) }
{
    let image = read_image(alloc, file)?;
    let code = instructions(alloc, image.code())?;
    let functions = read_functions(alloc, file)?;
    let text = text_of(
        alloc,
        file,
        functions.as_slice(),
        code.as_slice(),
        image.bytes(),
    )?;
    Ok(text)
}
