//! Loads and stores, as the load/store queue has them.
ghost use Rattle.std.specs.Prelude.{◌≡◌};
ghost use Rattle.instructions.specs.Instruction.{kind};
ghost use Rattle.inorder.specs.Loads.{access_entry as entry_with, access_width as width_of, is_store as is_store_of};

use instructions::{Kind, Op};
use lsq::{Entry, Width};

/// How many bytes a load or store reaches.
pub fn access_width(op: Op) -> Width
    ensures { result ≡ width_of op }
{
    match op {
        Op::Lb | Op::Lbu | Op::Sb => Width::Byte,
        Op::Lh | Op::Lhu | Op::Sh => Width::Half,
        _ => Width::Word,
    }
}

/// The operation is a store.
pub fn is_store(op: Op) -> bool
    ensures { result ≡ is_store_of (kind op) }
{
    matches!(op.kind(), Kind::Stores)
}

/// A load or store with the address and the data that it has.
pub fn access_entry(op: Op, address: Option<u32>, content: Option<u32>) -> Entry
    ensures { result ≡ entry_with op address content }
{
    Entry {
        store: is_store(op),
        width: access_width(op),
        address,
        content,
    }
}
