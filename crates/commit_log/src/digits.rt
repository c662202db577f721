//! Bytes in hexadecimal digits.
ghost use Rattle.std.specs.Prelude.{◌≡◌, ◌<◌, Some, [], ◌∷◌};
ghost use Rattle.isa.specs.Report.{hex_digit};
ghost use Rattle.commit_log.specs.Lines.{byte_text, stored_text};

use isa::Hexadecimal;
use std::fmt;

fn digit(value: u32) -> &'static str
    requires { value < 16 }
    ensures { result.now ≡ hex_digit value ∷ [] }
{
    match value {
        0 => "0",
        1 => "1",
        2 => "2",
        3 => "3",
        4 => "4",
        5 => "5",
        6 => "6",
        7 => "7",
        8 => "8",
        9 => "9",
        10 => "a",
        11 => "b",
        12 => "c",
        13 => "d",
        14 => "e",
        _ => "f",
    }
}

// The low byte of a number.
#[derive(Clone, Copy)]
struct Byte(u32);

impl fmt::Display for Byte {
    ghost output = { λ byte. Some (byte_text byte.0) };

    fn fmt<W: fmt::Write>(&self, f: &mut fmt::Formatter<W>) -> fmt::Result {
        let high = digit(self.0 / 16 % 16);
        let low = digit(self.0 % 16);
        write!(f, "{high}{low}")
    }
}

/// The bytes that a store of this width writes.
#[derive(Clone, Copy)]
pub(crate) struct Stored {
    pub(crate) width: u32,
    pub(crate) value: u32,
}

impl fmt::Display for Stored {
    ghost output = { λ stored. Some (stored_text stored.width stored.value) };

    fn fmt<W: fmt::Write>(&self, f: &mut fmt::Formatter<W>) -> fmt::Result {
        let low = Byte(self.value);
        let high = Byte(self.value / 256);
        let word = Hexadecimal(self.value);
        match self.width {
            1 => write!(f, "0x{low}"),
            2 => write!(f, "0x{high}{low}"),
            _ => write!(f, "{word}"),
        }
    }
}
