//! A register that is read and never written.

use instructions::{Half, Instr, Program, Reg};

// The number of $gp.
const GP: u8 = 28;

fn is_gp(r: Reg) -> bool {
    r.number() == GP
}

/// The address of the first instruction that reads `$gp`, where none writes it.
pub(crate) fn reads_unset_gp(code: &[Instr]) -> Option<u32> {
    let mut found = None;
    for (k, instr) in code.iter().enumerate() {
        if is_gp(instr.destination(Half::Low)) {
            return None;
        }
        let reads = is_gp(instr.first()) || is_gp(instr.second());
        if reads && found.is_none() {
            found = Some(Program::START.wrapping_add((4 * (k % 0x4000)) as u32));
        }
    }
    found
}
