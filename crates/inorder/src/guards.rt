//! What no legal step of a unit may do, and what a recovery restores, as laws.
ghost use Rattle.std.specs.Prelude.{List};
ghost use Rattle.instructions.specs.Programs.{Program};
ghost use Rattle.inorder.specs.Unit.{Sizes};
ghost use Rattle.inorder.specs.Legal.{Taken};
ghost use Rattle.inorder.specs.Guards.{MissStays, SquashedStays, IsClaimedOnce, StopEnds, LoadWaits, Delivers, Restores};

/// A misprediction is mended before it retires.
pub fn a_miss_does_not_retire()
    ensures { (p : Program) (c : Sizes) (history : List Taken) → MissStays p c history }
{}

/// Nobody finishes, retires or otherwise changes the station of a tenant that was squashed: a job
/// on a wrong path ends in nothing, and a stop on a wrong path ends no unit.
pub fn a_squashed_tenant_stays_squashed()
    ensures { (p : Program) (c : Sizes) (history : List Taken) → SquashedStays p c history }
{}

/// A tenant is claimed once, and finished by the caller that claimed it.
pub fn a_tenant_is_claimed_once()
    ensures { (p : Program) (c : Sizes) (history : List Taken) → IsClaimedOnce p c history }
{}

/// Once a stop has retired, nothing retires.
pub fn a_retired_stop_ends_the_unit()
    ensures { (p : Program) (c : Sizes) (history : List Taken) → StopEnds p c history }
{}

/// `Load` completes a load only where each older live store has its address.
pub fn a_load_passes_no_unknown_store()
    ensures { (p : Program) (c : Sizes) (history : List Taken) → LoadWaits p c history }
{}

/// A delivery gives a source that was asked for what its creator has made, and no other step
/// changes the value of any source.
pub fn a_delivery_reaches_who_asked()
    ensures { (p : Program) (c : Sizes) (history : List Taken) → Delivers p c history }
{}

/// A squash leaves the create vector and the front pc that the tenants before the squashed one
/// define, and a mended tenant goes on where its outcome says.
pub fn recovery_restores()
    ensures { (p : Program) (c : Sizes) (history : List Taken) → Restores p c history }
{}
