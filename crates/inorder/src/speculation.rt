//! What follows of speculation, and that nobody of a shared unit speculates, as laws.
ghost use Rattle.std.specs.Prelude.{List};
ghost use Rattle.instructions.specs.Programs.{Program};
ghost use Rattle.inorder.specs.Unit.{Sizes};
ghost use Rattle.inorder.specs.Legal.{Taken};
ghost use Rattle.inorder.specs.declared.history.Entry.{Entry};
ghost use Rattle.inorder.specs.SpeculationLaws.{GuessStays, DoneIsSure, FlushRestores, NobodySpeculates};

/// A guess is confirmed before it retires.
pub fn a_guess_does_not_retire()
    ensures { (p : Program) (c : Sizes) (history : List Taken) → GuessStays p c history }
{}

/// A load of the path that is done has the value that the older stores leave, and none of them can
/// still change it.
pub fn a_done_load_is_sure()
    ensures { (p : Program) (c : Sizes) (history : List Taken) → DoneIsSure p c history }
{}

/// A flush leaves the create vector and the front pc that the tenants before the flushed one define.
pub fn a_flush_restores()
    ensures { (p : Program) (c : Sizes) (history : List Taken) → FlushRestores p c history }
{}

/// No caller of a shared unit speculates, and no tenant of it has guessed.
pub fn nobody_of_a_shared_unit_speculates()
    ensures { (p : Program) (c : Sizes) (history : List Entry) → NobodySpeculates p c history }
{}
