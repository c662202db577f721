//! What holds of a front after its calls, and between two cores. Each function is a law: it does nothing, and its
//! contract is proved.
ghost use Rattle.front.specs.Behind.{RegistersStay};
ghost use Rattle.front.specs.Mended.{RecoveriesLeave};
ghost use Rattle.front.specs.Stills.{RefusedFrontsEnter, RenewedFrontsEnter};

/// A front that has left its core, and given its seat to a renewal, may enter with the seat that comes back: the
/// renewed core, or, where the renewal was refused, the core that it left.
pub fn a_front_enters_behind_a_renewal()
    ensures renewed { RenewedFrontsEnter }
    ensures refused { RefusedFrontsEnter }
{}

/// After a recovery the path goes on where the miss was mended to, with a whole instruction, and each register is
/// created by whom it was among the tenants up to the miss.
pub fn a_recovery_keeps_the_older()
    ensures { RecoveriesLeave }
{}

/// A value that `creator` tells of a register is the one that it tells after a renewal.
pub fn registers_stay_behind_a_renewal()
    ensures { RegistersStay }
{}
