//! The bytes of data memory as lines of a listing.
ghost use Rattle.std.specs.Prelude.{◌≡◌, ◌≤◌, ◌<◌, ◌+◌, ◌++◌, ◌^◌, ◌==◌, [], length, OnOk, string_bytes};
ghost use Rattle.std.specs.List.{list_all};
ghost use Rattle.disassembly.specs.Writing.{as_line, unlines, row_word as word_of, row_line, space_lines, AddsData};

use isa::Hexadecimal;
use std::alloc::AllocError;

/// The number of bytes in a line.
const ROW: usize = 16;

fn word_at(bytes: &[u8], at: usize) -> u32
    requires { at + 4 ≤ length bytes.now }
    ensures { result ≡ word_of bytes.now at }
{
    u32::from_le_bytes([bytes[at], bytes[at + 1], bytes[at + 2], bytes[at + 3]])
}

// Adds the line of 16 bytes.
#[tactic(auto, using(crate::proofs::DataSteps::row_added))]
fn push_row(out: &mut String, at: u32, row: &[u8]) -> Result<(), AllocError>
    requires { 16 ≤ length row.now }
    ensures { OnOk result (string_bytes out.new
        ≡ string_bytes out.old ++ as_line (row_line at row.now)) }
{
    let address = Hexadecimal(at);
    let first = Hexadecimal(word_at(row, 0));
    let second = Hexadecimal(word_at(row, 4));
    let third = Hexadecimal(word_at(row, 8));
    let fourth = Hexadecimal(word_at(row, 12));
    write!(
        out,
        "        .word {first},{second},{third},{fourth} # {address}\n"
    )
}

// Adds the line of n bytes of 0.
#[tactic(auto, using(crate::proofs::DataSteps::space_added))]
fn push_space(out: &mut String, count: usize) -> Result<(), AllocError>
    ensures { OnOk result (string_bytes out.new
        ≡ string_bytes out.old ++ unlines (space_lines count)) }
{
    if count == 0 {
        return Ok(());
    }
    write!(out, "        .space {count}\n")
}

fn is_zero(row: &[u8]) -> bool
    ensures { result ≡ list_all (λ b. b == 0) row.now }
{
    for b in row {
        if *b != 0 {
            return false;
        }
    }
    true
}

/// Adds the lines of all bytes, which are whole rows.
#[tactic(auto, using(crate::proofs::DataSteps::rows_none, crate::proofs::DataSteps::rows_zero, crate::proofs::DataSteps::rows_some, crate::proofs::DataSteps::rows_all))]
pub fn push_data(out: &mut String, bytes: &[u8]) -> Result<(), AllocError>
    requires { length bytes.now ≡ 65536 }
    ensures { OnOk result (AddsData bytes.now (string_bytes out.old) (string_bytes out.new)) }
{
    let mut zeros = 0usize;
    'rows: for k in 0..4096usize {
        let row = &bytes[ROW * k..ROW * k + ROW];
        if is_zero(row) {
            zeros += ROW;
        } else {
            push_space(out, zeros)?;
            push_row(out, (ROW * k) as u32, row)?;
            zeros = 0;
        }
    }
    push_space(out, zeros)
}
