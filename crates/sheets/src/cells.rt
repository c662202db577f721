//! The cycles of a row.
use crate::stage::Stage;

/// The cycles that a cell names: the first and the last one.
#[derive(Clone, Copy)]
pub struct Span {
    pub first: u64,
    pub last: u64,
}

/// The cells of a row that name cycles.
#[derive(Clone, Copy)]
pub struct Cells {
    dispatch: Option<Span>,
    begin: Option<Span>,
    memory: Option<Span>,
    write: Option<Span>,
    retire: Option<Span>,
    squash: Option<Span>,
}

impl Cells {
    /// Cells that are all empty.
    pub fn empty() -> Cells {
        Cells {
            dispatch: None,
            begin: None,
            memory: None,
            write: None,
            retire: None,
            squash: None,
        }
    }

    /// The cycles of a stage, where its cell names them.
    pub fn of(&self, stage: Stage) -> Option<Span> {
        match stage {
            Stage::Let => self.dispatch,
            Stage::Begin => self.begin,
            Stage::Memory => self.memory,
            Stage::Write => self.write,
            Stage::Retire => self.retire,
            Stage::Squash => self.squash,
        }
    }

    /// The cells with those of a stage.
    pub fn with(self, stage: Stage, span: Option<Span>) -> Cells {
        match stage {
            Stage::Let => Cells {
                dispatch: span,
                ..self
            },
            Stage::Begin => Cells {
                begin: span,
                ..self
            },
            Stage::Memory => Cells {
                memory: span,
                ..self
            },
            Stage::Write => Cells {
                write: span,
                ..self
            },
            Stage::Retire => Cells {
                retire: span,
                ..self
            },
            Stage::Squash => Cells {
                squash: span,
                ..self
            },
        }
    }

    /// No cell names a cycle.
    pub fn are_empty(&self) -> bool {
        Stage::all().iter().all(|stage| self.of(*stage).is_none())
    }
}
