//! What stands in a line after the words of an answer: instructions, producers, and what was woken or changed.
use crate::answer_words::{half, state};
use crate::names::UnitName;
use crate::replies::{Info, Operand, Producer, Reply, Row};
use crate::units::{Claimed, Held};
use back::{Commit, Refresh};
use front::Turn;
use inorder::is_store;
use instructions::{Half, Instr, Kind, Program, Reg};
use isa::{Hexadecimal, InstrText, RegisterName};
use station::{Finish, Source, SourceState};
use std::fmt;

/// The instruction with this index.
pub(crate) fn indexed(program: &Program, index: u32) -> Option<Instr> {
    let at = index as usize;
    if at < program.len() {
        Some(*program.instr(at))
    } else {
        None
    }
}

/// An instruction after a blank, if there is one.
#[derive(Clone, Copy)]
pub(crate) struct Shown(pub Option<Instr>);

impl fmt::Display for Shown {
    fn fmt<W: fmt::Write>(&self, f: &mut fmt::Formatter<W>) -> fmt::Result {
        match self.0 {
            Some(instr) => write!(f, " {}", InstrText::by_numbers(instr)),
            None => Ok(()),
        }
    }
}

// The instruction of an info word, if there is one. The word of a station where nobody was ever let is 0, and names none.
fn instr_of(program: &Program, info: &Info) -> Option<Instr> {
    match info {
        Info {
            index: 0,
            half: Half::Low,
            predicted: 0,
        } => None,
        _ => indexed(program, info.index),
    }
}

// The instruction that was let, and the half that its tenant is of one of two halves.
#[derive(Clone, Copy)]
struct Let(Option<Instr>, Option<Info>);

impl fmt::Display for Let {
    fn fmt<W: fmt::Write>(&self, f: &mut fmt::Formatter<W>) -> fmt::Result {
        write!(f, "{}", Shown(self.0))?;
        match (self.0, self.1) {
            (Some(instr), Some(info)) if instr.op().is_pair() => {
                write!(f, " half {}", half(info.half))
            }
            _ => Ok(()),
        }
    }
}

/// A producer after a word, if there is one.
#[derive(Clone, Copy)]
pub(crate) struct After(pub &'static str, pub Option<Producer>);

impl fmt::Display for After {
    fn fmt<W: fmt::Write>(&self, f: &mut fmt::Formatter<W>) -> fmt::Result {
        match self.1 {
            Some(Producer { station, tag }) => {
                write!(f, "{}station {station} tag {tag}", self.0)
            }
            None => Ok(()),
        }
    }
}

// The stations whose bits are set, if any is.
fn woken<W: fmt::Write>(bits: u32, f: &mut fmt::Formatter<W>) -> fmt::Result {
    if bits == 0 {
        return Ok(());
    }
    f.write_str(" woke")?;
    let mut left = bits;
    for station in 0..32_u32 {
        if left % 2 == 1 {
            write!(f, " {station}")?;
        }
        left /= 2;
    }
    Ok(())
}

// The registers that are not 0.
fn registers<W: fmt::Write>(values: &[u32; 34], f: &mut fmt::Formatter<W>) -> fmt::Result {
    for (r, value) in values.iter().enumerate() {
        if *value != 0 {
            write!(f, " {} {}", RegisterName(r), Hexadecimal(*value))?;
        }
    }
    Ok(())
}

// A register that was written, as a listing names it by its number; nothing of register 0, which never changes.
fn written<W: fmt::Write>(register: Reg, value: u32, f: &mut fmt::Formatter<W>) -> fmt::Result {
    let value = Hexadecimal(value);
    match register.number() {
        0 => Ok(()),
        32 => write!(f, " lo={value}"),
        33 => write!(f, " hi={value}"),
        number => write!(f, " ${number}={value}"),
    }
}

// The low bytes of a value, as many as are stored.
fn low_bytes(width: u32, value: u32) -> u32 {
    match width {
        1 => value % 256,
        2 => value % 65536,
        _ => value,
    }
}

// The change that a tenant makes when it retires. The word of a jump that links has the next pc, and its register gets the
// address after the jump.
fn change<W: fmt::Write>(
    pc: u32,
    instr: &Instr,
    row: &Row,
    f: &mut fmt::Formatter<W>,
) -> fmt::Result {
    let register = instr.destination(row.first.info.half);
    match instr.op().kind() {
        Kind::Stores => {
            let address = row.first.seen.value.wrapping_add(instr.number());
            let value = low_bytes(instr.op().width(), row.second.seen.value);
            write!(f, " m {}={}", Hexadecimal(address), Hexadecimal(value))
        }
        Kind::Links => written(register, pc.wrapping_add(4), f),
        _ => written(register, row.seen.value, f),
    }
}

fn is_read(instr: Option<Instr>, k: Source) -> bool {
    let number = match k {
        Source::First => 1,
        Source::Second => 2,
    };
    match instr {
        Some(instr) => instr.source(number).is_some(),
        None => true,
    }
}

// An operand: its value, or whom it waits for, or that the instruction does not read it.
#[derive(Clone, Copy)]
struct Read<'a>(&'a Program, Source, &'a Operand);

impl fmt::Display for Read<'_> {
    fn fmt<W: fmt::Write>(&self, f: &mut fmt::Formatter<W>) -> fmt::Result {
        let operand = self.2;
        if !is_read(indexed(self.0, operand.info.index), self.1) {
            return f.write_str("NONE");
        }
        let value = Hexadecimal(operand.seen.value);
        match (operand.seen.state, operand.from) {
            (SourceState::Wait, Some(from)) => { write!(f, "{}", After("WAIT for ", Some(from))) }
            (SourceState::Wait, None) => write!(f, "WAIT value {value}"),
            (SourceState::Val, _) => write!(f, "VAL value {value}"),
            (SourceState::Unset, _) => write!(f, "UNSET value {value}"),
        }
    }
}

/// What stands after the words of an answer.
#[derive(Clone, Copy)]
pub(crate) struct More<'a> {
    pub program: &'a Program,
    pub reply: &'a Reply,
}

impl More<'_> {
    // A store's job needs its base alone.
    fn of_job<W: fmt::Write>(&self, held: &Held, f: &mut fmt::Formatter<W>) -> fmt::Result {
        match indexed(self.program, held.index) {
            Some(instr) if is_store(instr.op()) => write!(f, "{}", Shown(Some(instr))),
            instr => write!(f, " b {}{}", Hexadecimal(held.b), Shown(instr)),
        }
    }

    fn of_station<W: fmt::Write>(&self, row: &Row, f: &mut fmt::Formatter<W>) -> fmt::Result {
        if let Some(unit) = row.unit {
            write!(f, " unit {}", UnitName(unit))?;
        }
        let info = row.first.info;
        let instr = Shown(instr_of(self.program, &info));
        let first = Read(self.program, Source::First, &row.first);
        let second = Read(self.program, Source::Second, &row.second);
        write!(f, "{info}{instr}; 1 {first}; 2 {second}")
    }

    fn of_retired<W: fmt::Write>(
        &self,
        pc: u32,
        station: usize,
        row: &Row,
        f: &mut fmt::Formatter<W>,
    ) -> fmt::Result {
        match self.program.fetch(pc) {
            Some(instr) => {
                write!(f, " station {station}")?;
                change(pc, &instr, row, f)
            }
            None => Ok(()),
        }
    }
}

impl fmt::Display for More<'_> {
    fn fmt<W: fmt::Write>(&self, f: &mut fmt::Formatter<W>) -> fmt::Result {
        match self.reply {
            Reply::Turn(Turn::Let { pc, .. }, info) => {
                write!(f, "{}", Let(self.program.fetch(*pc), *info))
            }
            Reply::Claim(Claimed::Job(held), _) => self.of_job(held, f),
            Reply::Claim(Claimed::Waiting { .. }, from) => write!(f, "{}", After(" from ", *from)),
            Reply::Finish(finished) if matches!(finished.answer, Finish::Finished) => {
                woken(finished.woken, f)
            }
            Reply::Refresh(refreshed) if matches!(refreshed.answer, Refresh::Loaded { .. }) => {
                woken(refreshed.woken, f)
            }
            Reply::Commit(Commit::Retired { pc, .. } | Commit::Half { pc }, Some((station, row))) =>
                self.of_retired(*pc, *station, row, f),
            Reply::Commit(Commit::NotDone, Some((station, row))) => {
                let (tag, state) = (row.seen.tag, state(row.seen.state));
                write!(f, " station {station} tag {tag} state {state}")
            }
            Reply::Taken(snap) => registers(&snap.registers, f),
            Reply::Info(info) => write!(f, "{}", Shown(instr_of(self.program, info))),
            Reply::Operand(k, operand) => write!(f, "{}", Read(self.program, *k, operand)),
            Reply::Station(row) => self.of_station(row, f),
            _ => Ok(()),
        }
    }
}
