//! The law of the fault that a listing is refused for.
ghost use Rattle.std.specs.Prelude.{◌≡◌, ◌≢◌, ◌<◌, ◌≤◌, ℕ, List, Ok, Err, length};
ghost use Rattle.lexical.specs.Line.{lines_of};
ghost use Rattle.instructions.specs.Programs.{Program};
ghost use Rattle.isa.specs.declared.listing.fault.FaultKind.{FaultKind};
ghost use Rattle.isa.specs.declared.listing.fault.FaultKind.TheVariants.{TooLong, UnknownLabel};
ghost use Rattle.isa.specs.Listing.{listing};
ghost use Rattle.isa.specs.Faults.{IsFirstFault, IsUnknownLabel, HasNoFault};

/// A listing is refused with the first line that has a fault, and of the faults of that line with the first one in the
/// order of their table. A label that no line has is named only where no line has a fault. A listing that is a program
/// has neither.
pub fn the_first_fault_is_named()
    ensures whole { (bytes : List ℕ) → 4194304 < length bytes → listing bytes ≡ Err (0, TooLong) }
    ensures line { (bytes : List ℕ) (line : ℕ) (kind : FaultKind) →
        length bytes ≤ 4194304 → kind ≢ UnknownLabel →
        listing bytes ≡ Err (line, kind) → IsFirstFault (lines_of bytes) line kind }
    ensures unknown { (bytes : List ℕ) (line : ℕ) →
        listing bytes ≡ Err (line, UnknownLabel) → IsUnknownLabel (lines_of bytes) line }
    ensures none { (bytes : List ℕ) (program : Program) →
        listing bytes ≡ Ok program → HasNoFault (lines_of bytes) }
{}
