//! Why a file is not read.
use std::alloc::{AllocError, AllocFailed};
use std::fmt;

/// What is wrong with a place of a file.
#[derive(Clone, Copy)]
pub enum Flaw {
    /// No column has this name.
    NoColumn,
    /// An earlier column says the same.
    Doubled,
    /// The table has no column of dispatches.
    NoDispatch,
    /// The cell is no cycle.
    NoCycle,
    /// The range ends before it begins.
    Backwards,
    NoNumber,
    MoreCells,
    NoInstruction,
    /// A later cell of the row has a cycle.
    Missing,
    MoreRows,
    NoBusy,
    MoreStations,
    /// No instruction of a log of stages was begun with this number.
    NoEntry,
    /// Something is done to an instruction that was not let.
    NotLet,
    /// No line of the format begins so.
    NoCommand,
    /// An instruction is made of several operations.
    Parts,
}

impl fmt::Display for Flaw {
    fn fmt<W: fmt::Write>(&self, f: &mut fmt::Formatter<W>) -> fmt::Result {
        f.write_str(match self {
            Flaw::NoColumn => "no column has this name",
            Flaw::Doubled => "an earlier column says the same",
            Flaw::NoDispatch => "no column says when an instruction is issued",
            Flaw::NoCycle =>
                "a cycle is wanted: a number up to 999999999, a range as 3-5, - or nothing",
            Flaw::Backwards => "the range ends before it begins",
            Flaw::NoNumber => "a number is wanted",
            Flaw::MoreCells => {
                "there are more cells than columns: a cell with the separator in it stands in quotes"
            }
            Flaw::NoInstruction => "the listing has no such instruction",
            Flaw::Missing => "a cycle is missing: a later cell of the row has one",
            Flaw::NoEntry => "no I line has this number",
            Flaw::NotLet =>
                "something is done to an instruction that was not let: --stage NAME=let names that stage",
            Flaw::NoCommand => "no line of the format begins so",
            Flaw::Parts => "a part of an instruction: each is to be one operation",
            Flaw::NoBusy => "yes or no is wanted",
            Flaw::MoreStations => "a table has at most 999 stations",
            Flaw::MoreRows => "a table has at most 100000 rows",
        })
    }
}

/// A place of a file, and what is wrong there.
#[derive(Clone, Copy)]
pub struct Misread {
    pub line: u64,
    /// The number of the cell in its line, from 1 on; 0 where it is the whole line.
    pub cell: usize,
    pub why: Flaw,
}

/// Why there is no sheet.
#[derive(Clone, Copy)]
pub enum Trouble {
    Memory,
    Misread(Misread),
}

impl Trouble {
    /// A cell of a line is wrong.
    pub fn at(line: u64, cell: usize, why: Flaw) -> Trouble {
        Trouble::Misread(Misread { line, cell, why })
    }
}

impl From<AllocError> for Trouble {
    fn from(_error: AllocError) -> Trouble {
        Trouble::Memory
    }
}

impl<T: Drop> From<AllocFailed<T>> for Trouble {
    fn from(_failed: AllocFailed<T>) -> Trouble {
        Trouble::Memory
    }
}
