//! Why a step is refused.
use inorder::history::Source;
use instructions::Stop;

/// Why an act on a tenant is refused. Tenants are named by their positions.
#[derive(Clone, Copy)]
pub enum Refusal {
    /// Nobody was let at this position.
    NotLet,
    Retired,
    Squashed,
    /// The tenant has left so long ago that it is dropped.
    Gone,
    /// The tenant was claimed before.
    HasBegun,
    /// The tenant has its outcome.
    HasEnded,
    /// The least source that it needs and that has no value, and who makes it.
    Waits(Source, Option<usize>),
    /// The tenant was not claimed.
    NotBegun,
    /// The source was asked for, or known from the start.
    HasAsked,
    /// The source was not asked for.
    NotAsked,
    /// The source has its value.
    HasValue,
    /// Who makes the source has made nothing.
    NothingMade(Option<usize>),
    /// The tenant is no load.
    NoLoad,
    /// The load has no address, or has its value.
    NoAddress,
    /// An older store in flight has no address.
    StoreAddress(usize),
    /// A byte of the load is not there yet.
    NoByte,
    /// A younger one is in flight.
    Younger(usize),
    /// No older one in flight is a misprediction.
    NoMiss,
    /// The tenant is no misprediction.
    NotMissed,
    /// An older one is in flight.
    Older(usize),
    /// The load has guessed nothing that is to be confirmed.
    NotGuessed,
    /// What the sources of the load give is no address.
    BadAddress,
    /// An older store can still change the bytes of the load: the oldest one without an address, or one without its data.
    NotSure(Option<usize>),
    /// The load has another value.
    OtherValue(u32),
    /// The tenant is not done.
    NotDone,
    /// A stop has retired.
    Ended(usize, Stop),
}
