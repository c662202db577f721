//! What others write of an out-of-order run: tables of cycles and logs of pipelines, read as events with their places.
#![tactic(auto)]

mod cells;
mod columns;
mod facts;
mod held;
mod kanata;
mod labels;
mod lines;
mod making;
mod misread;
mod naming;
mod order;
mod path;
mod pipeview;
mod placed;
mod row;
mod sheet;
mod stage;
mod step;
mod table;

pub use cells::{Cells, Span};
pub use columns::{Column, Columns};
pub use facts::Facts;
pub use held::{Awaited, Held, held_in};
pub use kanata::{begins_kanata, kanata_in};
pub use misread::{Flaw, Misread, Trouble};
pub use naming::Named;
pub use order::{Within, order_within};
pub use pipeview::{begins_pipeview, pipeview_in};
pub use placed::{Moment, Place, Placed};
pub use row::Row;
pub use sheet::{Sheet, sheet_in};
pub use stage::Stage;
pub use step::{Step, StepName, StepNames, step_in};
pub use table::begins_table;
