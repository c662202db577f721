//! What is known of the instruction of a row.
use instructions::{Half, Instr, Kind};

/// What is known of an instruction.
#[derive(Clone, Copy)]
pub struct Facts {
    pub kind: Kind,
    /// How many dispatches it is: the halves of a multiplication or division are two.
    pub halves: usize,
    /// The instruction makes a value for a register.
    pub has_result: bool,
    /// The instruction reads no register and makes no value, as a jump or a stop.
    pub is_idle: bool,
    /// The next pc is predicted.
    pub is_predicted: bool,
}

impl Facts {
    /// What is taken for true of an instruction that is not known.
    pub(crate) fn unknown() -> Facts {
        Facts {
            kind: Kind::Computes,
            halves: 1,
            has_result: true,
            is_idle: false,
            is_predicted: true,
        }
    }

    pub(crate) fn of(instr: &Instr) -> Facts {
        let has_result = instr.written(Half::Low).is_some();
        let reads = instr.source(1).is_some() || instr.source(2).is_some();
        Facts {
            kind: instr.op().kind(),
            halves: if instr.op().is_pair() { 2 } else { 1 },
            has_result,
            is_idle: !reads && !has_result,
            is_predicted: instr.fixed_next(Half::High, 0).is_none(),
        }
    }
}
