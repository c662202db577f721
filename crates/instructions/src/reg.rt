//! The number of a register.
ghost use Rattle.std.specs.Prelude.{◌≡◌, ℕ, ◌<◌, ◌↔◌, IsSome, IfSome};
ghost use Rattle.instructions.specs.Registers.{general_count, register_count};

use std::marker::Model;

/// The number of a register: 0 to 31 for the general ones, of which 0 always reads 0, then LO and
/// HI.
#[derive(Clone, Copy, Debug, PartialEq, Eq)]
pub struct Reg {
    number: u8,
}

impl Model for Reg {
    ghost Value = { ℕ };

    ghost view = { λ r. r.number };

    ghost invariant = { λ r. r.number < 34 };

    ghost inverse = { λ n. record { number = n } };
}

impl Reg {
    /// The number of registers.
    pub const COUNT: usize = 34;

    /// Register 0, which always reads 0.
    pub const ZERO: Reg = Reg { number: 0 };

    /// Register 31, into which calls link.
    pub const LINK: Reg = Reg { number: 31 };

    /// LO: the low word of a product, or a quotient.
    pub const LO: Reg = Reg { number: 32 };

    /// HI: the high word of a product, or a remainder.
    pub const HI: Reg = Reg { number: 33 };

    /// The register with this number, where there is one.
    pub fn new(number: u8) -> Option<Reg>
        ensures some { IsSome result ↔ (number < register_count) }
        ensures value { IfSome result (λ r. r ≡ number) }
    {
        if number < 34 {
            Some(Reg { number })
        } else {
            None
        }
    }

    /// The general register with this number, where there is one. A listing names these alone.
    pub fn general(number: u8) -> Option<Reg>
        ensures some { IsSome result ↔ (number < general_count) }
        ensures value { IfSome result (λ r. r ≡ number) }
    {
        if number < 32 {
            Some(Reg { number })
        } else {
            None
        }
    }

    /// The number of the register.
    pub fn number(self) -> u8
        ensures value { result ≡ self }
        ensures small { result < register_count }
    {
        self.number
    }
}
