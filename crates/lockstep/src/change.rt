//! What a step has changed.
ghost use Rattle.std.specs.Prelude.{◌≡◌, slice_index};
ghost use Rattle.instructions.specs.Instruction.{is_pair, kind as kind_of};
ghost use Rattle.lockstep.specs.Changes.{change_by, change_if, low_bytes as low_bytes_of, register_change};

use crate::stepping::register;
use instructions::{Half, Instr, Kind, Reg};

/// What a step has changed: registers with the values that they hold since, and the address of a load or store. All is 0
/// where a step did not go on.
#[repr(C)]
#[derive(Clone, Copy, Debug, PartialEq, Eq)]
pub struct Change {
    /// How many registers were written: 0, 1 or 2. A write of register 0 counts for none.
    pub registers: u32,
    /// The first of them.
    pub first: u32,
    /// What the first holds.
    pub first_value: u32,
    /// The second of them.
    pub second: u32,
    /// What the second holds.
    pub second_value: u32,
    /// How many bytes were loaded or stored: 1, 2 or 4; 0 by another instruction.
    pub width: u32,
    /// The address of the first of these bytes.
    pub address: u32,
    /// 1 where they were stored.
    pub is_store: u32,
    /// The bytes that were stored, as a little endian number.
    pub stored: u32,
}

impl Change {
    /// Nothing was changed.
    pub const NONE: Change = Change {
        registers: 0,
        first: 0,
        first_value: 0,
        second: 0,
        second_value: 0,
        width: 0,
        address: 0,
        is_store: 0,
        stored: 0,
    };
}

// The change of a register.
fn of_register(registers: &[u32; 34], r: Reg) -> Change
    ensures { result ≡ register_change r registers.now }
{
    let number = u32::from(r.number());
    if number == 0 {
        return Change::NONE;
    }
    Change {
        registers: 1,
        first: number,
        first_value: register(registers, r),
        ..Change::NONE
    }
}

// The low bytes of a number, as many as a store of this width writes.
fn low_bytes(width: u32, value: u32) -> u32
    ensures { result ≡ low_bytes_of width value }
{
    match width {
        1 => value % 0x100,
        2 => value % 0x1_0000,
        _ => value,
    }
}

// The change by an instruction that writes at most one register.
fn by_kind(instr: &Instr, before: &[u32; 34], after: &[u32; 34]) -> Change
    ensures { result ≡ change_by (kind_of instr.now.op) instr.now before.now after.now }
{
    let width = instr.op().width();
    let address = register(before, instr.first()).wrapping_add(instr.number());
    match instr.op().kind() {
        Kind::Loads => Change {
            width,
            address,
            ..of_register(after, instr.destination(Half::Low))
        },
        Kind::Stores => Change {
            width,
            address,
            is_store: 1,
            stored: low_bytes(width, register(before, instr.second())),
            ..Change::NONE
        },
        _ => of_register(after, instr.destination(Half::Low)),
    }
}

/// The change by an instruction that was run, by the registers before and after it.
pub(crate) fn changed(instr: &Instr, before: &[u32; 34], after: &[u32; 34]) -> Change
    ensures { result ≡ change_if (is_pair instr.now.op) instr.now before.now after.now }
{
    if instr.op().is_pair() {
        return Change {
            registers: 2,
            first: u32::from(Reg::LO.number()),
            first_value: register(after, Reg::LO),
            second: u32::from(Reg::HI.number()),
            second_value: register(after, Reg::HI),
            ..Change::NONE
        };
    }
    by_kind(instr, before, after)
}
