//! The place of what is told, in the form to which editors jump, and the line with its mark.
ghost use Rattle.std.specs.Prelude.{◌≡◌, ◌++◌, ◌<◌, OnOk, flat_map};
ghost use Rattle.isa.specs.Report.{hex_digit};
ghost use Rattle.checker.specs.Parts.{IsPartOf};
ghost use Rattle.checker.specs.Spots.{IsAdvice, escape, headline, rule_line, shown};

use super::parts::Part;
use super::quoting::quote;
use lexical::is_plain;
use std::alloc::{AllocError, Global};

/// A line of a listing, with its number and the name of the file as it is shown.
#[derive(Clone, Copy)]
pub(crate) struct Spot<'a> {
    pub file: &'a [u8],
    pub number: u64,
    pub line: &'a [u8],
}

// The hexadecimal digit of a number below 16.
fn hex_digit(n: u8) -> u8
    requires { n < 16 }
    ensures { result ≡ hex_digit n }
{
    if n < 10 { b'0' + n } else { b'a' - 10 + n }
}

/// The escape of a byte: `\x` and two hexadecimal digits.
pub(crate) fn escape(byte: u8) -> [u8; 4]
    ensures { result ≡ escape byte }
{
    [b'\\', b'x', hex_digit(byte / 16), hex_digit(byte % 16)]
}

// Adds a byte as it is shown.
fn push_byte(text: &mut Vec<u8>, byte: u8) -> Result<(), AllocError>
    ensures { OnOk result (text.new.items ≡ text.old.items ++ shown byte) }
{
    if is_plain(byte) || byte == b'\n' {
        text.extend_from_slice(&[byte])
    } else {
        text.extend_from_slice(&escape(byte))
    }
}

// Adds bytes as they are shown: without control characters but line feeds.
fn push_shown(text: &mut Vec<u8>, bytes: &[u8]) -> Result<(), AllocError>
    ensures { OnOk result (text.new.items ≡ text.old.items ++ flat_map shown bytes.now) }
{
    for byte in bytes {
        push_byte(text, *byte)?;
    }
    Ok(())
}

// What stands first: the help, or the rule where no help is known.
fn headline<'a>(help: &'a [u8], rule: &'a str) -> &'a [u8]
    ensures { result.now ≡ headline help.now rule.now }
{
    if help.is_empty() {
        rule.as_bytes()
    } else {
        help
    }
}

// Adds the rule in a line of its own, where help stands first.
fn push_rule(text: &mut Vec<u8>, help: &[u8], rule: &str) -> Result<(), AllocError>
    ensures { OnOk result (text.new.items ≡ text.old.items ++ rule_line help.now rule.now) }
{
    if help.is_empty() {
        return Ok(());
    }
    text.extend_from_slice(rule.as_bytes())?;
    text.extend_from_slice(b"\n")
}

/// Adds the place of a part with what helps, if that is known, the line with its mark, and the rule that is broken. Lines
/// and columns are counted from 1.
pub(crate) fn push_advice(
    alloc: Global,
    text: &mut Vec<u8>,
    spot: Spot<'_>,
    part: Part,
    severity: &str,
    help: &[u8],
    rule: &str,
) -> Result<(), AllocError>
    requires { IsPartOf spot.line.now part }
    ensures { OnOk result (IsAdvice spot.entry.file.now spot.entry.number part severity.now
        help.now rule.now text.old.items text.new.items) }
{
    let (number, column) = (spot.number, part.from + 1);
    text.extend_from_slice(spot.file)?;
    let place = format!(in alloc; ":{number}:{column}: {severity}")?;
    text.extend_from_slice(place.as_bytes())?;
    let first = headline(help, rule);
    push_shown(text, first)?;
    text.push(b'\n')?;
    let quote = quote(alloc, spot.line, part)?;
    push_shown(text, quote.as_slice())?;
    push_rule(text, help, rule)?;
    Ok(())
}
