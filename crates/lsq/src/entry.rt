//! Memory instructions and the widths of their accesses.
ghost use Rattle.std.specs.Prelude.{◌≡◌};
ghost use Rattle.lsq.specs.Entries.{bytes};

/// How many bytes a load or a store moves.
#[derive(Clone, Copy, Debug, Default, PartialEq)]
pub enum Width {
    #[default]
    Byte,
    Half,
    Word,
}

impl Width {
    /// The number of bytes.
    pub fn bytes(self) -> u32
        ensures { result ≡ bytes self }
    {
        match self {
            Width::Byte => 1,
            Width::Half => 2,
            Width::Word => 4,
        }
    }
}

/// One live load or store.
///
/// `content` is the whole register that a store writes: its low bytes, as many as the width says,
/// go to memory, little endian. A load has none.
#[derive(Clone, Copy, Debug, Default, PartialEq)]
pub struct Entry {
    pub store: bool,
    pub width: Width,
    pub address: Option<u32>,
    pub content: Option<u32>,
}
