//! The fast path of the one-thread unit: `run` ends as turns of `one_thread` do, without making most of them one by one.
//!
//! A turn searches the window: for a miss, for an instruction whose operands are there, for a load that no store blocks, and
//! for the last writer of each operand. While all live instructions have completed, the result of each search is known.
//!
//! **A flow** is a unit in that state. `Flow` holds each live instruction in short, by its station, without a stage
//! (`CompletedRing`), and the registers after the youngest of them, the future file of Smith and Pleszkun (`Future`). Each
//! instruction keeps what its register held before, as in a history buffer, so that the committed registers are found again
//! (`registers_before`). `stream` makes a flow of the window, lets instructions enter and leave it, and writes the window anew.
//!
//! **Why its states are those of turns.** A turn makes the first step that is possible: a recovery, a let, an execution, a
//! load, a retirement. In a flow nothing waits for a recovery, an execution or a load. So the next turns let the next
//! instruction, execute it with operands of the future file, give it its value if it is a load, and mend it if it was
//! mispredicted (`enter_flow`); once nothing more can be let, since the ring or the load/store queue is full, the oldest
//! instruction retires (`leave_flow`).
//!
//! Nearly always one station is free. The instruction that fills it is the only one to be executed, and its outcome stands
//! before another is let: a miss squashes nobody and is mended in place. Where more can be let before any is executed, each
//! runs as it is let; after a miss the predicted path is let as far as it goes, and squashed (`mend`).
//!
//! **When it falls back.** Turns of `one_thread` go on until an instruction has retired (`retire_one`) where the next
//! instruction does not complete at once: none is at the pc, it stops, it is a load that a store blocks, or a miss among
//! several that were let in a row, of which one is a load: a turn may execute a younger instruction before that load has its
//! value. All of that row are again as they were let then (`Reopened`). A ring of one station has no flow.
//!
//! The contracts promise that each state is one that legal steps reach (`Flows`), and that a run ends as the in-order machine
//! does. That the stations after each retirement, and what a predictor is asked and told, are those of turns one by one is
//! tested and not proved.
#![tactic(auto)]

mod astray;
mod completed_ring;
mod completing;
mod departing;
mod entering;
mod flow;
mod future;
mod known;
mod retiring;
mod rounds;
mod running;
mod streaming;

pub use running::run;
