//! The operands of an operation.
ghost use Rattle.std.specs.Prelude.{◌≡◌};
ghost use Rattle.isa.specs.Forms.{operands_text, slots};

/// The kind of an operand of an operation.
#[derive(Clone, Copy)]
pub enum Slot {
    /// The register that the operation writes.
    Into,
    /// The register of source 1.
    First,
    /// The register of source 2.
    Second,
    /// A number from -32768 to 32767.
    S16,
    /// A number from 0 to 65535.
    U16,
    /// A number from 0 to 31.
    U5,
    /// A label.
    Label,
    /// An offset and the register of source 1.
    Offset,
}

use Slot::{First, Into, Label, Offset, S16, Second, U5, U16};

/// The operands of an operation, by the names that the manual of MIPS I gives registers:
/// rd is written, rs and rt are read. Where there is no rd, a load and an operation with a number write rt.
#[derive(Clone, Copy)]
pub enum Operands {
    RdRsRt,
    RdRtRs,
    RdRtAmount,
    RdRs,
    RsRt,
    Rd,
    Rs,
    RtRsSigned,
    RtRsUnsigned,
    RtUnsigned,
    Load,
    Store,
    RsRtLabel,
    RsLabel,
    Label,
    Nothing,
}

impl Operands {
    /// The kinds of the operands, from the left.
    pub fn slots(self) -> &'static [Slot]
        ensures { result.now ≡ slots self }
    {
        match self {
            Operands::RdRsRt | Operands::RdRtRs => &[Into, First, Second],
            Operands::RdRtAmount => &[Into, First, U5],
            Operands::RdRs => &[Into, First],
            Operands::RsRt => &[First, Second],
            Operands::Rd => &[Into],
            Operands::Rs => &[First],
            Operands::RtRsSigned => &[Into, First, S16],
            Operands::RtRsUnsigned => &[Into, First, U16],
            Operands::RtUnsigned => &[Into, U16],
            Operands::Load => &[Into, Offset],
            Operands::Store => &[Second, Offset],
            Operands::RsRtLabel => &[First, Second, Label],
            Operands::RsLabel => &[First, Label],
            Operands::Label => &[Label],
            Operands::Nothing => &[],
        }
    }

    /// The operands as a form shows them after its word.
    pub fn text(self) -> &'static str
        ensures { result.now ≡ operands_text self }
    {
        match self {
            Operands::RdRsRt => "rd,rs,rt",
            Operands::RdRtRs => "rd,rt,rs",
            Operands::RdRtAmount => "rd,rt,n with n from 0 to 31",
            Operands::RdRs => "rd,rs",
            Operands::RsRt => "rs,rt",
            Operands::Rd => "rd",
            Operands::Rs => "rs",
            Operands::RtRsSigned => "rt,rs,n with n from -32768 to 32767",
            Operands::RtRsUnsigned => "rt,rs,n with n from 0 to 65535",
            Operands::RtUnsigned => "rt,n with n from 0 to 65535",
            Operands::Load | Operands::Store => "rt,n(rs) with n from -32768 to 32767",
            Operands::RsRtLabel => "rs,rt,label",
            Operands::RsLabel => "rs,label",
            Operands::Label => "label",
            Operands::Nothing => "without operands",
        }
    }
}
