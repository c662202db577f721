//! Why an event is refused.
use replay::{Deed, NoLet, Refusal};

/// Why an event is no legal step. Tenants are named by their positions.
#[derive(Clone, Copy)]
pub enum Why {
    /// The instruction may not be let.
    Let(NoLet),
    /// The path goes on at this pc, where no instruction is.
    NoInstruction(u32),
    /// This may not be done to this tenant.
    Act(usize, Deed, Refusal),
    /// Nobody was let at this position.
    NotLet(usize),
    /// Who was let at this position has left, so long ago that the tenant is dropped.
    Gone(usize),
    /// The producers of its sources are these.
    OtherProducer(usize, Option<usize>, Option<usize>),
    /// The value of this tenant is this one.
    OtherValue(usize, u32),
    /// This tenant has made no value.
    NoValue(usize),
    /// Nobody is in flight.
    Nobody,
}
