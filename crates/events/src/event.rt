//! One event of a log.

/// One event of a log. An instruction in flight is named by its position, which is how many were let before it.
#[derive(Clone, Copy)]
pub enum Event {
    /// The next instruction of the path enters a station: its pc and the predicted next pc, where the log says them.
    Let(Option<u32>, Option<u32>),
    /// One of its sources comes from this producer.
    From(usize, usize),
    /// Its execution begins.
    Begin(usize),
    /// Its execution ends: with its result, a branch's next pc, or the address of a load or store.
    End(usize, Option<u32>),
    /// Its execution begins, if it has not, and ends.
    Execute(usize, Option<u32>),
    /// The load could have its value now.
    Read(usize, Option<u32>),
    /// The load has its value.
    Load(usize, Option<u32>),
    /// All that is left of its execution: it begins, ends, and a load has its value.
    Complete(usize, Option<u32>),
    /// The oldest retires, with its value or the data of a store.
    Retire(Option<usize>, Option<u32>),
    /// The youngest is squashed.
    Squash(Option<usize>),
    /// A misprediction is mended: the path goes on where the instruction really goes.
    Mend(usize),
    /// All younger ones are squashed, and the misprediction is mended.
    Recover(usize),
}

/// What `issue` means in a log.
#[derive(Clone, Copy)]
pub enum Issue {
    /// Nothing: the word is refused.
    Ambiguous,
    /// An instruction enters a station, as `let`.
    Dispatch,
    /// Its execution begins, as `begin`.
    Execute,
}
