//! What holds of a back between two cores. The function is a law: it does nothing, and its contract is proved.
ghost use Rattle.back.specs.Stills.{RefusedBacksEnter, RenewedBacksEnter};

/// A back that has left its core, and given its seat to a renewal, may enter with the seat that comes back: the
/// renewed core, or, where the renewal was refused, the core that it left.
pub fn a_back_enters_behind_a_renewal()
    ensures renewed { RenewedBacksEnter }
    ensures refused { RefusedBacksEnter }
{}
