//! Which refusals only follow from an earlier mistake.
use crate::grading::{Grading, Refused};
use crate::said::Sort;
use events::Why;
use replay::{Fate, NoLet, Refusal};
use sheets::Placed;

impl Grading<'_> {
    // An event of a row is late: it stands before this one, and has not come.
    fn is_late_in(&self, at: usize, rows: Rows, sort: Sort) -> bool {
        for late in self.late.iter() {
            if *late < at {
                if let Some(placed) = self.sheet.events.as_slice().get(*late) {
                    if rows.have(placed.row) && sort.has(placed) {
                        return true;
                    }
                }
            }
        }
        false
    }

    // An event of the instruction at a position is late.
    fn is_late(&self, at: usize, position: usize, sort: Sort) -> bool {
        match self.sheet.row_at(position) {
            Some(row) => self.is_late_in(at, Rows::One(row), sort),
            None => false,
        }
    }

    // A store waits for data, or a misprediction for squashes, that are late.
    fn follows_undone(&self, at: usize, who: usize) -> bool {
        let Some(tenant) = self.judge.unit.tenant(who) else {
            return false;
        };
        match (tenant.fate, tenant.second.creator) {
            (Fate::Miss(_), _) => self.is_late_in(at, Rows::All, Sort::Squash),
            (Fate::Addr(_), Some(producer)) => self.is_late(at, producer, Sort::End),
            _ => false,
        }
    }

    fn follows_refusal(&self, at: usize, row: usize, who: usize, refusal: Refusal) -> bool {
        match refusal {
            Refusal::Waits(_, Some(producer)) => self.is_late(at, producer, Sort::End),
            Refusal::StoreAddress(store) => self.is_late(at, store, Sort::End),
            Refusal::NoByte | Refusal::NoMiss => self.is_late_in(at, Rows::Before(row), Sort::End),
            Refusal::Older(older) => self.is_late(at, older, Sort::Retire),
            Refusal::Younger(younger) => self.is_late(at, younger, Sort::Squash),
            Refusal::NotDone => self.follows_undone(at, who),
            _ => false,
        }
    }

    /// A dispatch at another pc follows from a squash or a result that is late.
    pub(crate) fn follows_let(&self, placed: &Placed, why: Why) -> bool {
        self.follows(usize::MAX, placed, Refused::By(why))
    }

    /// A refusal follows from an event that is late.
    pub(crate) fn follows(&self, at: usize, placed: &Placed, refused: Refused) -> bool {
        let row = placed.row;
        if self.is_late_in(at, Rows::One(row), Sort::Any) {
            return true;
        }
        match refused {
            Refused::Unordered => self.is_late_in(at, Rows::Before(row), Sort::Let),
            Refused::By(Why::Let(NoLet::RingFull | NoLet::QueueFull)) => {
                self.is_late_in(at, Rows::Before(row), Sort::Retire)
                    || self.is_late_in(at, Rows::Before(row), Sort::Squash)
            }
            Refused::By(Why::Let(_) | Why::NoInstruction(_)) => {
                self.is_late_in(at, Rows::Before(row), Sort::Squash)
                    || self.is_late_in(at, Rows::Before(row), Sort::End)
            }
            Refused::By(Why::Act(who, _, refusal)) => {
                self.follows_refusal(at, row, who, refusal)
            }
            Refused::By(_) => false,
        }
    }
}

// Some rows of a table.
#[derive(Clone, Copy)]
enum Rows {
    One(usize),
    Before(usize),
    All,
}

impl Rows {
    fn have(self, row: usize) -> bool {
        match self {
            Rows::One(one) => row == one,
            Rows::Before(end) => row < end,
            Rows::All => true,
        }
    }
}
