//! The fields of a word.
ghost use Rattle.std.specs.Prelude.{◌≡◌, ◌<◌, ◌^◌};
ghost use Rattle.std.specs.Int.{w16};
ghost use Rattle.instructions.specs.Operations.{extended};
ghost use Rattle.encoding.specs.Fields.{opcode_of, select_of, rs_of, rt_of, rd_of, shift_of, funct_of, immediate_of, region_index_of};

use instructions::Reg;

pub fn opcode(word: u32) -> u32
    ensures value { result ≡ opcode_of word }
    ensures small { result < 64 }
{
    word >> 26
}

pub fn function(word: u32) -> u32
    ensures { result ≡ funct_of word }
{
    word % 64
}

fn register(number: u32) -> Reg
    requires { number < 32 }
    ensures { result ≡ number }
{
    Reg::new(number as u8).unwrap_or(Reg::ZERO)
}

pub fn rs(word: u32) -> Reg
    ensures { result ≡ rs_of word }
{
    register((word >> 21) % 32)
}

pub fn rt(word: u32) -> Reg
    ensures { result ≡ rt_of word }
{
    register((word >> 16) % 32)
}

pub fn rd(word: u32) -> Reg
    ensures { result ≡ rd_of word }
{
    register((word >> 11) % 32)
}

pub fn shift(word: u32) -> u32
    ensures { result ≡ shift_of word }
{
    (word >> 6) % 32
}

/// The lower 16 bits.
pub fn half(word: u32) -> u32
    ensures { result ≡ immediate_of word }
{
    word % 0x1_0000
}

/// The lower 16 bits, with their sign.
pub fn signed_half(word: u32) -> u32
    ensures { result ≡ extended w16 (immediate_of word) }
{
    i32::from(((word % 0x1_0000) as u16).cast_signed()).cast_unsigned()
}

/// The lower 26 bits.
pub fn index(word: u32) -> u32
    ensures value { result ≡ region_index_of word }
    ensures small { result < 2 ^ 26 }
{
    word % 0x400_0000
}

/// The field that selects among the operations with one opcode.
pub fn select(word: u32) -> u32
    ensures { result ≡ select_of word }
{
    match opcode(word) {
        0 => function(word),
        1 => u32::from(rt(word).number()),
        _ => 0,
    }
}
