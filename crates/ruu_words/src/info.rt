//! Info words.
ghost use Rattle.std.specs.Prelude.{◌≡◌, ◌<◌, ◌^◌};
ghost use Rattle.ruu_words.specs.Fields.{pack_info, half_bit, half_by, half_of, index_of, predicted_of};

use instructions::Half;

/// The content of a station's info word.
#[derive(Clone, Copy)]
pub struct InfoWord {
    /// The half of its instruction that the tenant is.
    pub half: Half,
    /// The index of the instruction.
    pub index: u32,
    /// The predicted next pc.
    pub predicted: u32,
}

// The bit of a half.
fn bit(half: Half) -> u64
    ensures { result ≡ half_bit half }
{
    match half {
        Half::Low => 0,
        Half::High => 1,
    }
}

// The half of a bit.
fn half_at(bit: u64) -> Half
    ensures { result ≡ half_by bit }
{
    match bit {
        0 => Half::Low,
        _ => Half::High,
    }
}

impl InfoWord {
    /// The word: bit 63 is the half, bits 62 to 32 are the index, 31 to 0 the predicted next pc.
    pub fn pack(self) -> u64
        requires { self.index < 2 ^ 31 }
        ensures { result ≡ pack_info self.half self.index self.predicted }
    {
        (bit(self.half) << 63) + (u64::from(self.index) << 32) + u64::from(self.predicted)
    }

    /// The fields of a word.
    pub fn unpack(word: u64) -> InfoWord
        ensures half { result.half ≡ half_of word }
        ensures index { result.index ≡ index_of word }
        ensures predicted { result.predicted ≡ predicted_of word }
    {
        InfoWord {
            half: half_at(word >> 63),
            index: ((word >> 32) & 0x7fff_ffff) as u32,
            predicted: (word & 0xffff_ffff) as u32,
        }
    }
}
