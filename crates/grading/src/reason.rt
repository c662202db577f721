//! Reasons, in sentences.
use crate::grading::{Grading, Refused};
use crate::register::push_register;
use crate::said::{Sort, said};
use events::Why;
use inorder::history::Source;
use isa::{Hexadecimal, InstrText, RegisterStyle};
use replay::{Fate, NoLet, Refusal};
use sheets::{Placed, Stage};
use std::alloc::AllocError;

impl Grading<'_> {
    /// Why an event of a row is refused.
    pub(crate) fn reason(&self, placed: &Placed, refused: Refused) -> Result<String, AllocError> {
        let mut out = String::new(self.alloc);
        match refused {
            Refused::Unordered => self.push_unordered(&mut out)?,
            Refused::By(Why::Let(reason)) => self.push_no_let(&mut out, placed.row, reason)?,
            Refused::By(Why::NoInstruction(_)) => {
                out.push_str("the path goes on where no instruction is")?;
            }
            Refused::By(Why::Act(who, _, refusal)) => {
                self.push_refusal(&mut out, placed.row, who, refusal)?;
            }
            Refused::By(Why::OtherValue(_, is)) => {
                let is = Hexadecimal(is);
                write!(&mut out, "the value is {is}")?;
            }
            Refused::By(Why::NoValue(_)) => out.push_str("it makes no value")?,
            Refused::By(Why::NotLet(_)) => {
                self.push_later(&mut out, "is not issued yet", placed.row, Sort::Let)?;
            }
            Refused::By(Why::OtherProducer(..) | Why::Gone(_) | Why::Nobody) => out.push_str(
                "is not possible",
            )?,
        }
        Ok(out)
    }

    // The row of an instruction at a position, from 1 on.
    fn push_row(&self, out: &mut String, position: usize) -> Result<(), AllocError> {
        match self.sheet.row_at(position) {
            Some(row) => {
                let number = row.saturating_add(1);
                write!(out, "row {number}")
            }
            None => out.push_str("no row"),
        }
    }

    // In which cycle the table has an event of a row.
    fn push_cycle(&self, out: &mut String, row: usize, sort: Sort) -> Result<(), AllocError> {
        match said(self.sheet, row, sort) {
            Some(told) if !told.is_missing => {
                let cycle = told.place.cycle;
                write!(out, " in cycle {cycle}")
            }
            _ => out.push_str(" in no cycle"),
        }
    }

    fn push_later(
        &self,
        out: &mut String,
        text: &str,
        row: usize,
        sort: Sort,
    ) -> Result<(), AllocError> {
        out.push_str(text)?;
        match said(self.sheet, row, sort) {
            Some(told) if !told.is_missing => {
                let (cycle, column) = (told.place.cycle, self.sheet.columns.name_of(told.stage));
                write!(out, ": its {column} is in cycle {cycle}")
            }
            _ => Ok(()),
        }
    }

    // The row that is dispatched next stands before.
    fn push_unordered(&self, out: &mut String) -> Result<(), AllocError> {
        let next = self.judge.unit.tenants.len();
        match self.sheet.row_at(next) {
            Some(row) => {
                self.push_row(out, next)?;
                out.push_str(" is issued before it,")?;
                self.push_cycle(out, row, Sort::Let)
            }
            None => out.push_str("no row is left"),
        }
    }

    fn push_no_let(&self, out: &mut String, row: usize, reason: NoLet) -> Result<(), AllocError> {
        match reason {
            NoLet::RingFull => {
                let ring = self.judge.unit.ring;
                write!(out, "no station is free: all {ring} are in use")
            }
            NoLet::QueueFull => {
                let queue = self.judge.unit.queue;
                write!(
                    out,
                    "the load/store queue is full: {queue} loads and stores are in flight"
                )
            }
            NoLet::OtherPc(front) => {
                self.push_front(out, front)?;
                if !self.is_misnamed(row) {
                    out.push_str(", until the rows of the wrong path are squashed")?;
                }
                Ok(())
            }
            NoLet::OtherNext(fixed) => {
                let fixed = Hexadecimal(fixed);
                write!(out, "nothing is predicted: it goes on at {fixed}")
            }
            NoLet::NoInstruction | NoLet::NoSupply(_) => out.push_str(
                "there is no such instruction",
            ),
        }
    }

    fn push_front(&self, out: &mut String, front: u32) -> Result<(), AllocError> {
        match self.judge.unit.program.fetch(front) {
            Some(instr) => {
                let text = InstrText {
                    naming: RegisterStyle::Names,
                    instr,
                };
                write!(out, "the path goes on with {text}")
            }
            None => {
                let pc = Hexadecimal(front);
                write!(out, "the path goes on at {pc}, where no instruction is")
            }
        }
    }

    // A source of an instruction is not there.
    fn push_wait(
        &self,
        out: &mut String,
        who: usize,
        k: Source,
        producer: Option<usize>,
    ) -> Result<(), AllocError> {
        let Some(tenant) = self.judge.unit.tenant(who) else {
            return Ok(());
        };
        let instr = self.judge.unit.instr(&tenant);
        out.push_str("needs ")?;
        push_register(
            out,
            match k {
                Source::First => instr.first(),
                Source::Second => instr.second(),
            },
        )?;
        match producer {
            Some(producer) => self.push_producer(out, producer),
            None => Ok(()),
        }
    }

    fn push_producer(&self, out: &mut String, producer: usize) -> Result<(), AllocError> {
        out.push_str(" of ")?;
        self.push_row(out, producer)?;
        let Some(row) = self.sheet.row_at(producer) else {
            return Ok(());
        };
        match said(self.sheet, row, Sort::End) {
            Some(told) if told.stage == Stage::Write => out.push_str(", which is written")?,
            _ => out.push_str(", which is there")?,
        }
        self.push_cycle(out, row, Sort::End)
    }

    // An instruction of another row, and when it does something.
    fn push_other(
        &self,
        out: &mut String,
        position: usize,
        text: &str,
        sort: Sort,
    ) -> Result<(), AllocError> {
        self.push_row(out, position)?;
        out.push_str(text)?;
        match self.sheet.row_at(position) {
            Some(row) => self.push_cycle(out, row, sort),
            None => Ok(()),
        }
    }

    fn push_store(&self, out: &mut String, store: usize) -> Result<(), AllocError> {
        out.push_str("needs the address of the store of ")?;
        self.push_other(out, store, ", which is there", Sort::End)
    }

    // The oldest cannot retire.
    fn push_not_done(&self, out: &mut String, row: usize, who: usize) -> Result<(), AllocError> {
        let Some(tenant) = self.judge.unit.tenant(who) else {
            return Ok(());
        };
        match (tenant.fate, tenant.second.value) {
            (Fate::Miss(_), _) => out.push_str(
                "was mispredicted: the rows after it are squashed first",
            ),
            (Fate::Addr(_), None) => self.push_wait(
                out,
                who,
                Source::Second,
                tenant.second.creator,
            ),
            _ => self.push_later(out, "has no result yet", row, Sort::End),
        }
    }

    fn push_refusal(
        &self,
        out: &mut String,
        row: usize,
        who: usize,
        refusal: Refusal,
    ) -> Result<(), AllocError> {
        match refusal {
            Refusal::Waits(k, producer) => self.push_wait(out, who, k, producer),
            Refusal::StoreAddress(store) => self.push_store(out, store),
            Refusal::NoByte => out.push_str("needs the data of an older store"),
            Refusal::Older(older) => self.push_other(out, older, " commits first,", Sort::Retire),
            Refusal::Younger(younger) => self.push_other(
                out,
                younger,
                " is squashed first,",
                Sort::Squash,
            ),
            Refusal::NotDone => self.push_not_done(out, row, who),
            Refusal::NotLet => self.push_later(out, "is not issued yet", row, Sort::Let),
            Refusal::NotBegun => self.push_later(out, "has not begun", row, Sort::Begin),
            Refusal::Retired => self.push_later(out, "has committed before", row, Sort::Retire),
            Refusal::Squashed => self.push_later(out, "was squashed before", row, Sort::Squash),
            Refusal::NoMiss => out.push_str("no older branch is known to be mispredicted"),
            Refusal::NoAddress => out.push_str("has no address yet"),
            Refusal::HasBegun => out.push_str("has begun before"),
            Refusal::HasEnded => out.push_str("has its result before"),
            Refusal::Ended(_, _) => out.push_str("the program has ended before"),
            _ => out.push_str("is not possible"),
        }
    }
}
