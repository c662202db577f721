//! The operations, and what each reads, writes and does.
ghost use Rattle.std.specs.Prelude.{◌≡◌, ◌<◌, ◌≤◌};
ghost use Rattle.instructions.specs.Targets.{names_target as names_target_of};
ghost use Rattle.instructions.specs.Instruction.{operations, kind as kind_of, width as width_of, is_access as is_access_of, is_branch as is_branch_of, is_pair as is_pair_of, reads_first as reads_first_of, reads_second as reads_second_of, writes as writes_of};

/// An operation of the table of MIPS I integer operations. `nop` is `Sll` of zeros.
#[derive(Clone, Copy, Debug, PartialEq, Eq)]
pub enum Op {
    Addu,
    Subu,
    Add,
    Sub,
    And,
    Or,
    Xor,
    Nor,
    Slt,
    Sltu,
    Sll,
    Srl,
    Sra,
    Sllv,
    Srlv,
    Srav,
    Mult,
    Multu,
    Div,
    Divu,
    Mflo,
    Mfhi,
    Mtlo,
    Mthi,
    Addiu,
    Addi,
    Slti,
    Sltiu,
    Andi,
    Ori,
    Xori,
    Lui,
    Lb,
    Lbu,
    Lh,
    Lhu,
    Lw,
    Sb,
    Sh,
    Sw,
    Beq,
    Bne,
    Blez,
    Bgtz,
    Bltz,
    Bgez,
    J,
    Jal,
    Jr,
    Jalr,
    Break,
}

/// A half of a multiplication or division: the first writes LO, the second HI. Any other
/// instruction has the low half alone.
#[derive(Clone, Copy, PartialEq)]
pub enum Half {
    Low,
    High,
}

/// The kind of an operation.
#[derive(Clone, Copy, PartialEq)]
pub enum Kind {
    /// Computes a value from its sources, or stops.
    Computes,
    /// Sets the pc and writes no register.
    Jumps,
    /// Sets the pc, and writes the address after the instruction into a register.
    Links,
    /// Reads memory into a register.
    Loads,
    /// Writes a register into memory.
    Stores,
}

static OPERATIONS: [Op; 51] = [
    Op::Addu,
    Op::Subu,
    Op::Add,
    Op::Sub,
    Op::And,
    Op::Or,
    Op::Xor,
    Op::Nor,
    Op::Slt,
    Op::Sltu,
    Op::Sll,
    Op::Srl,
    Op::Sra,
    Op::Sllv,
    Op::Srlv,
    Op::Srav,
    Op::Mult,
    Op::Multu,
    Op::Div,
    Op::Divu,
    Op::Mflo,
    Op::Mfhi,
    Op::Mtlo,
    Op::Mthi,
    Op::Addiu,
    Op::Addi,
    Op::Slti,
    Op::Sltiu,
    Op::Andi,
    Op::Ori,
    Op::Xori,
    Op::Lui,
    Op::Lb,
    Op::Lbu,
    Op::Lh,
    Op::Lhu,
    Op::Lw,
    Op::Sb,
    Op::Sh,
    Op::Sw,
    Op::Beq,
    Op::Bne,
    Op::Blez,
    Op::Bgtz,
    Op::Bltz,
    Op::Bgez,
    Op::J,
    Op::Jal,
    Op::Jr,
    Op::Jalr,
    Op::Break,
];

impl Op {
    /// All operations, in the order of their table.
    pub fn all() -> &'static [Op]
        ensures { result.now ≡ operations }
    {
        OPERATIONS.as_slice()
    }

    /// The kind of the operation.
    pub fn kind(self) -> Kind
        ensures { result ≡ kind_of self }
    {
        match self {
            Op::Lb | Op::Lbu | Op::Lh | Op::Lhu | Op::Lw => Kind::Loads,
            Op::Sb | Op::Sh | Op::Sw => Kind::Stores,
            Op::Beq | Op::Bne | Op::Blez | Op::Bgtz | Op::Bltz | Op::Bgez | Op::J | Op::Jr =>
                Kind::Jumps,
            Op::Jal | Op::Jalr => Kind::Links,
            _ => Kind::Computes,
        }
    }

    /// Whether the operation is a load or a store.
    pub fn is_access(self) -> bool
        ensures { result ≡ is_access_of (kind_of self) }
    {
        matches!(self.kind(), Kind::Loads | Kind::Stores)
    }

    /// The number of bytes that a load or store accesses: 1, 2 or 4.
    pub fn width(self) -> u32
        ensures value { result ≡ width_of self }
        ensures positive { 0 < result }
        ensures small { result ≤ 4 }
    {
        match self {
            Op::Lb | Op::Lbu | Op::Sb => 1,
            Op::Lh | Op::Lhu | Op::Sh => 2,
            _ => 4,
        }
    }

    /// Whether the operation is a conditional branch.
    pub fn is_branch(self) -> bool
        ensures { result ≡ is_branch_of self }
    {
        matches!(
            self,
            Op::Beq | Op::Bne | Op::Blez | Op::Bgtz | Op::Bltz | Op::Bgez
        )
    }

    /// Whether the operation makes two values, one for LO and one for HI.
    pub fn is_pair(self) -> bool
        ensures { result ≡ is_pair_of self }
    {
        matches!(self, Op::Mult | Op::Multu | Op::Div | Op::Divu)
    }

    /// Whether the number of an instruction with this operation is the address of its target.
    pub fn names_target(self) -> bool
        ensures { result ≡ names_target_of self }
    {
        self.is_branch() || matches!(self, Op::J | Op::Jal)
    }

    // Whether the operation has a source 1.
    pub(crate) fn reads_first(self) -> bool
        ensures { result ≡ reads_first_of self }
    {
        !matches!(self, Op::Lui | Op::J | Op::Jal | Op::Break)
    }

    // Whether the operation has a source 2.
    pub(crate) fn reads_second(self) -> bool
        ensures { result ≡ reads_second_of self }
    {
        match self {
            Op::Addu | Op::Subu | Op::Add | Op::Sub | Op::And | Op::Or | Op::Xor | Op::Nor => true,
            Op::Slt | Op::Sltu | Op::Sllv | Op::Srlv | Op::Srav => true,
            Op::Mult | Op::Multu | Op::Div | Op::Divu => true,
            Op::Sb | Op::Sh | Op::Sw | Op::Beq | Op::Bne => true,
            _ => false,
        }
    }

    // Whether the operation writes a register.
    pub(crate) fn writes(self) -> bool
        ensures { result ≡ writes_of self }
    {
        match self {
            Op::Break => false,
            _ => !matches!(self.kind(), Kind::Jumps | Kind::Stores),
        }
    }
}
