//! The directives, which add bytes to data memory.
ghost use Rattle.std.specs.Prelude.{◌≡◌, ◌≢◌, ◌≤◌, ◌%◌, Err, length, replicate, OnOk, IfOk, IfErr};
ghost use Rattle.std.specs.Option.{option_map};
ghost use Rattle.lexical.specs.Operand.{operands_left};
ghost use Rattle.isa.specs.Reading.{Reads};
ghost use Rattle.isa.specs.Statement.{space, words, data_words, directive_text};
ghost use Rattle.isa.specs.Held.{IsAppended};

use super::fault::FaultKind;
use super::form::same_word;
use super::operand::number;
use lexical::{count_operands, next_operand, only_operand};

/// The number of zero bytes that `.space` adds: a multiple of 4, at most 65,536.
#[tactic(auto, unfolding(crate::specs::Statement::space))]
pub fn space(part: Option<&[u8]>) -> Result<u32, FaultKind>
    ensures value { Reads (λ n. replicate n 0) result
        (space (operands_left (option_map (λ t. t.now) part.entry))) }
    ensures words { IfOk result (λ n. n % 4 ≡ 0) }
{
    let text = only_operand(part).ok_or(FaultKind::BadOperands)?;
    let n = number(text, 0, 65536)?;
    if n % 4 == 0 {
        Ok(n)
    } else {
        Err(FaultKind::BadNumber)
    }
}

// Adds the bytes of the numbers, the lowest first.
fn add_numbers(memory: &mut Vec<u8>, part: Option<&[u8]>) -> Result<(), FaultKind>
    ensures ok { OnOk result (IsAppended
        (words (operands_left (option_map (λ t. t.now) part.entry)))
        memory.old.items memory.new.items) }
    ensures aligned { OnOk result (length memory.old.items % 4 ≡ 0
        → length memory.new.items % 4 ≡ 0) }
    ensures fault { IfErr result (λ e. e ≢ FaultKind.Memory
        → words (operands_left (option_map (λ t. t.now) part.entry)) ≡ Err e) }
{
    let mut rest = part;
    while let Some(text) = rest {
        let (operand, after) = next_operand(text);
        let value = number(operand, 0x8000_0000, 0xffff_ffff)?;
        memory.extend_from_slice(value.to_le_bytes().as_slice())?;
        rest = after;
    }
    Ok(())
}

/// Adds the bytes of `.word`.
pub fn add_words(memory: &mut Vec<u8>, part: Option<&[u8]>) -> Result<(), FaultKind>
    ensures ok { OnOk result (IsAppended
        (data_words (operands_left (option_map (λ t. t.now) part.entry)))
        memory.old.items memory.new.items) }
    ensures aligned { OnOk result (length memory.old.items % 4 ≡ 0
        → length memory.new.items % 4 ≡ 0) }
    ensures fault { IfErr result (λ e. e ≢ FaultKind.Memory
        → data_words (operands_left (option_map (λ t. t.now) part.entry)) ≡ Err e) }
{
    if count_operands(part) == 0 {
        return Err(FaultKind::BadOperands);
    }
    add_numbers(memory, part)
}

/// The form of a directive with its operands, if the word, in letters of either case, is that of one.
#[tactic(auto, unfolding(crate::specs::Statement::directive_text))]
pub fn directive_text(word: &[u8]) -> Option<&'static str>
    ensures { option_map (λ t. t.now) result ≡ directive_text word.now }
{
    if same_word(b".space", word) {
        return Some(".space n with n a multiple of 4 from 0 to 65536");
    }
    if same_word(b".word", word) {
        return Some(".word n,.. with each n from -2147483648 to 4294967295");
    }
    None
}
