//! One step over machine words and buffers.
ghost use Rattle.std.specs.Prelude.{◌≡◌, ◌≤◌, ◌+◌, Some, length, slice_index};
ghost use Rattle.instructions.specs.declared.op.Half.TheVariants.{Low};
ghost use Rattle.instructions.specs.Operations.{AddressIsInside, outcome as whole_outcome};
ghost use Rattle.instructions.specs.Instruction.{destination as destination_of, kind as kind_of, width as width_of, pc_plus_4 as pc_plus_4_of};
ghost use Rattle.inorder.specs.Machine.{after_access, write as written};
ghost use Rattle.encoding.specs.Words.{decode as decode_of};
ghost use Rattle.lockstep.specs.Changes.{change_over};
ghost use Rattle.lockstep.specs.Many.{HasRunMany, many_over};
ghost use Rattle.lockstep.specs.Step.{word_at as word_of, step_as, step_by, step_over, machine_state, HoldsState, IsFetched, IsStepped};

use crate::change::{Change, changed};
use encoding::{decode, decode_as, operation_of};
use inorder::data::{number, store};
use instructions::{
    Half, Instr, Kind, Op, Outcome, Program, Reg, Stop, loaded, outcome, outcome_by_kind, pc_plus_4,
};

/// The answer of a step.
#[derive(Clone, Copy, Debug, PartialEq, Eq)]
pub enum Answer {
    /// One instruction was run.
    Went,
    /// The instruction at the pc stops; nothing was changed.
    Stopped(Stop),
    /// The word at the pc is no operation; nothing was changed.
    NoOperation,
}

#[tactic(auto, unfolding(crate::specs::Step::word_at))]
fn word_at(text: &[u32], pc: u32) -> Option<u32>
    requires { length text.now ≤ 16384 }
    ensures { result ≡ word_of text.now pc }
{
    let offset = pc.wrapping_sub(Program::START);
    if offset % 4 == 0 {
        text.get((offset / 4) as usize).copied()
    } else {
        None
    }
}

fn instruction(word: u32, pc: u32) -> Option<Instr>
    ensures { result ≡ decode_of pc word }
{
    Some(Instr::from(decode(word, pc)?))
}

pub(crate) fn register(registers: &[u32; 34], r: Reg) -> u32
    ensures { result ≡ slice_index registers.now r }
{
    registers[r.number() as usize]
}

// Writes a register; a write to register 0 is dropped.
fn write(registers: &mut [u32; 34], r: Reg, value: u32)
    ensures { registers.new ≡ written registers.old r value }
{
    let number = r.number();
    if number != 0 {
        registers[number as usize] = value;
    }
}

// The register that an instruction of a kind changes: its only one, or LO.
#[inline(always)]
fn destination(kind: Kind, instr: &Instr) -> Reg
    requires { kind ≡ kind_of instr.now.op }
    ensures { result ≡ destination_of instr.now Low }
{
    match kind {
        Kind::Jumps | Kind::Stores => Reg::ZERO,
        _ if instr.op().is_pair() => Reg::LO,
        _ => instr.target,
    }
}

// Runs the load or store at an address.
#[inline(always)]
fn access(
    kind: Kind,
    memory: &mut [u8],
    registers: &mut [u32; 34],
    pc: u32,
    instr: &Instr,
    address: usize,
)
    requires kind { kind ≡ kind_of instr.now.op }
    requires inside { address + width_of instr.now.op ≤ length memory.old }
    ensures { HoldsState registers.new memory.new (pc_plus_4_of pc)
        (after_access kind (machine_state registers.old memory.old pc) instr.now address) }
{
    let width = instr.op().width() as usize;
    match kind {
        Kind::Stores => {
            store(memory, address, width, register(registers, instr.second()));
        }
        _ => {
            let raw = number(memory, address, width);
            write(registers, destination(kind, instr), loaded(instr.op(), raw));
        }
    }
}

// The instruction that the word at an address says, or the answer of a step where there is none.
fn fetch(text: &[u32], pc: u32) -> Result<Instr, Answer>
    requires { length text.now ≤ 16384 }
    ensures { IsFetched pc (word_of text.now pc) result }
{
    let Some(word) = word_at(text, pc) else {
        return Err(Answer::Stopped(Stop::BadPc));
    };
    instruction(word, pc).ok_or(Answer::NoOperation)
}

// The outcome of an instruction of a kind.
#[inline(always)]
fn outcome_of(kind: Kind, instr: &Instr, pc: u32, a: u32, b: u32, size: u32) -> Outcome
    requires { kind ≡ kind_of instr.now.op }
    ensures value { result ≡ whole_outcome instr.now pc a b size }
    ensures inside { AddressIsInside result (width_of instr.now.op) size }
{
    if instr.op().is_pair() {
        outcome(instr, pc, a, b, size)
    } else {
        outcome_by_kind(kind, instr, Half::Low, pc, a, b, size)
    }
}

// Runs an instruction of a kind.
#[inline(always)]
fn run(
    kind: Kind,
    memory: &mut [u8],
    registers: &mut [u32; 34],
    pc: &mut u32,
    instr: &Instr,
) -> Answer
    requires kind { kind ≡ kind_of instr.now.op }
    requires memory { length memory.old ≤ 65536 }
    ensures { IsStepped (machine_state registers.old memory.old pc.old) result
        registers.new memory.new pc.new
        (step_by (machine_state registers.old memory.old pc.old) (Some instr.now)) }
{
    let at = *pc;
    let a = register(registers, instr.first());
    let b = register(registers, instr.second());
    *pc = match outcome_of(kind, instr, at, a, b, memory.len() as u32) {
        Outcome::Stop(stop) => return Answer::Stopped(stop),
        Outcome::Value(value) => {
            write(registers, destination(kind, instr), value);
            pc_plus_4(at)
        }
        Outcome::Next(next) => {
            write(registers, destination(kind, instr), pc_plus_4(at));
            next
        }
        Outcome::Pair(low, high) => {
            write(registers, destination(kind, instr), low);
            write(registers, instr.destination(Half::High), high);
            pc_plus_4(at)
        }
        Outcome::Address(address) => {
            access(kind, memory, registers, at, instr, address as usize);
            pc_plus_4(at)
        }
    };
    Answer::Went
}

// Runs a word as an instruction of an operation.
#[inline(always)]
fn run_as(op: Op, word: u32, memory: &mut [u8], registers: &mut [u32; 34], pc: &mut u32) -> Answer
    requires { length memory.old ≤ 65536 }
    ensures { IsStepped (machine_state registers.old memory.old pc.old) result
        registers.new memory.new pc.new
        (step_as op word (machine_state registers.old memory.old pc.old)) }
{
    match decode_as(op, word, *pc) {
        Some(decoded) => run(op.kind(), memory, registers, pc, &Instr::from(decoded)),
        None => Answer::NoOperation,
    }
}

// Runs a word as a multiplication or division. It stands apart, so that the code of the other operations saves no registers
// for the calls in it.
#[inline(never)]
fn run_pair(op: Op, word: u32, memory: &mut [u8], registers: &mut [u32; 34], pc: &mut u32) -> Answer
    requires { length memory.old ≤ 65536 }
    ensures { IsStepped (machine_state registers.old memory.old pc.old) result
        registers.new memory.new pc.new
        (step_as op word (machine_state registers.old memory.old pc.old)) }
{
    run_as(op, word, memory, registers, pc)
}

// Runs a word, if it is an instruction. Each operation has an arm of its own, so that the compiler makes code for it alone:
// what `outcome_of` and `access` ask of an operation is then known.
#[tactic(auto, using(crate::proofs::TheStep::decoded_as))]
fn run_word(word: u32, memory: &mut [u8], registers: &mut [u32; 34], pc: &mut u32) -> Answer
    requires { length memory.old ≤ 65536 }
    ensures { IsStepped (machine_state registers.old memory.old pc.old) result
        registers.new memory.new pc.new
        (step_by (machine_state registers.old memory.old pc.old) (decode_of pc.old word)) }
{
    match operation_of(word) {
        Some(Op::Addu) => run_as(Op::Addu, word, memory, registers, pc),
        Some(Op::Subu) => run_as(Op::Subu, word, memory, registers, pc),
        Some(Op::Add) => run_as(Op::Add, word, memory, registers, pc),
        Some(Op::Sub) => run_as(Op::Sub, word, memory, registers, pc),
        Some(Op::And) => run_as(Op::And, word, memory, registers, pc),
        Some(Op::Or) => run_as(Op::Or, word, memory, registers, pc),
        Some(Op::Xor) => run_as(Op::Xor, word, memory, registers, pc),
        Some(Op::Nor) => run_as(Op::Nor, word, memory, registers, pc),
        Some(Op::Slt) => run_as(Op::Slt, word, memory, registers, pc),
        Some(Op::Sltu) => run_as(Op::Sltu, word, memory, registers, pc),
        Some(Op::Sll) => run_as(Op::Sll, word, memory, registers, pc),
        Some(Op::Srl) => run_as(Op::Srl, word, memory, registers, pc),
        Some(Op::Sra) => run_as(Op::Sra, word, memory, registers, pc),
        Some(Op::Sllv) => run_as(Op::Sllv, word, memory, registers, pc),
        Some(Op::Srlv) => run_as(Op::Srlv, word, memory, registers, pc),
        Some(Op::Srav) => run_as(Op::Srav, word, memory, registers, pc),
        Some(Op::Mult) => run_pair(Op::Mult, word, memory, registers, pc),
        Some(Op::Multu) => run_pair(Op::Multu, word, memory, registers, pc),
        Some(Op::Div) => run_pair(Op::Div, word, memory, registers, pc),
        Some(Op::Divu) => run_pair(Op::Divu, word, memory, registers, pc),
        Some(Op::Mflo) => run_as(Op::Mflo, word, memory, registers, pc),
        Some(Op::Mfhi) => run_as(Op::Mfhi, word, memory, registers, pc),
        Some(Op::Mtlo) => run_as(Op::Mtlo, word, memory, registers, pc),
        Some(Op::Mthi) => run_as(Op::Mthi, word, memory, registers, pc),
        Some(Op::Addiu) => run_as(Op::Addiu, word, memory, registers, pc),
        Some(Op::Addi) => run_as(Op::Addi, word, memory, registers, pc),
        Some(Op::Slti) => run_as(Op::Slti, word, memory, registers, pc),
        Some(Op::Sltiu) => run_as(Op::Sltiu, word, memory, registers, pc),
        Some(Op::Andi) => run_as(Op::Andi, word, memory, registers, pc),
        Some(Op::Ori) => run_as(Op::Ori, word, memory, registers, pc),
        Some(Op::Xori) => run_as(Op::Xori, word, memory, registers, pc),
        Some(Op::Lui) => run_as(Op::Lui, word, memory, registers, pc),
        Some(Op::Lb) => run_as(Op::Lb, word, memory, registers, pc),
        Some(Op::Lbu) => run_as(Op::Lbu, word, memory, registers, pc),
        Some(Op::Lh) => run_as(Op::Lh, word, memory, registers, pc),
        Some(Op::Lhu) => run_as(Op::Lhu, word, memory, registers, pc),
        Some(Op::Lw) => run_as(Op::Lw, word, memory, registers, pc),
        Some(Op::Sb) => run_as(Op::Sb, word, memory, registers, pc),
        Some(Op::Sh) => run_as(Op::Sh, word, memory, registers, pc),
        Some(Op::Sw) => run_as(Op::Sw, word, memory, registers, pc),
        Some(Op::Beq) => run_as(Op::Beq, word, memory, registers, pc),
        Some(Op::Bne) => run_as(Op::Bne, word, memory, registers, pc),
        Some(Op::Blez) => run_as(Op::Blez, word, memory, registers, pc),
        Some(Op::Bgtz) => run_as(Op::Bgtz, word, memory, registers, pc),
        Some(Op::Bltz) => run_as(Op::Bltz, word, memory, registers, pc),
        Some(Op::Bgez) => run_as(Op::Bgez, word, memory, registers, pc),
        Some(Op::J) => run_as(Op::J, word, memory, registers, pc),
        Some(Op::Jal) => run_as(Op::Jal, word, memory, registers, pc),
        Some(Op::Jr) => run_as(Op::Jr, word, memory, registers, pc),
        Some(Op::Jalr) => run_as(Op::Jalr, word, memory, registers, pc),
        Some(Op::Break) => run_as(Op::Break, word, memory, registers, pc),
        None => Answer::NoOperation,
    }
}

/// Runs the instruction that the word at the pc says: `text` holds the machine words, the first of them at 0x00400000,
/// and `memory` the bytes of data memory, from address 0 on. Registers 32 and 33 are LO and HI.
#[inline(always)]
pub fn step(text: &[u32], memory: &mut [u8], registers: &mut [u32; 34], pc: &mut u32) -> Answer
    requires text { length text.now ≤ 16384 }
    requires memory { length memory.old ≤ 65536 }
    ensures { IsStepped (machine_state registers.old memory.old pc.old) result
        registers.new memory.new pc.new
        (step_over text.now (machine_state registers.old memory.old pc.old)) }
{
    match word_at(text, *pc) {
        Some(word) => run_word(word, memory, registers, pc),
        None => Answer::Stopped(Stop::BadPc),
    }
}

/// Runs the instruction that the word at the pc says, as `step` does, and tells what it has changed.
pub fn step_told(
    text: &[u32],
    memory: &mut [u8],
    registers: &mut [u32; 34],
    pc: &mut u32,
    change: &mut Change,
) -> Answer
    requires text { length text.now ≤ 16384 }
    requires memory { length memory.old ≤ 65536 }
    ensures step { IsStepped (machine_state registers.old memory.old pc.old) result
        registers.new memory.new pc.new
        (step_over text.now (machine_state registers.old memory.old pc.old)) }
    ensures change { change.new
        ≡ change_over text.now (machine_state registers.old memory.old pc.old) }
{
    *change = Change::NONE;
    let instr = match fetch(text, *pc) {
        Ok(instr) => instr,
        Err(answer) => return answer,
    };
    let before = *registers;
    let answer = run(instr.op().kind(), memory, registers, pc, &instr);
    if answer == Answer::Went {
        *change = changed(&instr, &before, registers);
    }
    answer
}

/// Runs instructions as `step` does, at most as many as `steps` says, up to the first that does not go on. Afterwards
/// `steps` says how many went on.
pub fn run_many(
    text: &[u32],
    memory: &mut [u8],
    registers: &mut [u32; 34],
    pc: &mut u32,
    steps: &mut u64,
) -> Answer
    requires text { length text.now ≤ 16384 }
    requires memory { length memory.old ≤ 65536 }
    ensures { HasRunMany result registers.new memory.new pc.new steps.new
        (many_over text.now steps.old (machine_state registers.old memory.old pc.old)) }
{
    let most = *steps;
    let mut done = 0;
    'steps: while done < most {
        match step(text, memory, registers, pc) {
            Answer::Went => done += 1,
            answer => {
                *steps = done;
                return answer;
            }
        }
    }
    Answer::Went
}
