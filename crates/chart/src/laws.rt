//! Laws of charts and logs: whom a row and an event tell of.
ghost use Rattle.std.specs.Prelude.{◌<◌, ◌^◌, List, ◌∷◌, length};
ghost use Rattle.std.specs.List.{AllByRecursion};
ghost use Rattle.instructions.specs.Programs.{Program};
ghost use Rattle.inorder.specs.Unit.{Sizes};
ghost use Rattle.chart.specs.declared.lines.Style.{Style};
ghost use Rattle.chart.specs.Happened.{Happened};
ghost use Rattle.chart.specs.Named.{AreNamed};
ghost use Rattle.chart.specs.Traced.{AreTurns, Passed, unit_behind, events_at, kept_behind};

/// Each row is that of the tenant at its position, which is live and stands in the row's station, and each live
/// tenant has one: behind any turns, while tenants can be counted.
pub fn a_row_names_its_tenant()
    ensures { (s : Style) (p : Program) (c : Sizes) (turns : List Passed) → AreTurns p c turns →
        length (unit_behind turns).tenants < 2 ^ 64 →
        AreNamed p (unit_behind turns).tenants (kept_behind s p turns).rows }
{}

/// Each event of a turn has become of the tenant that it names: who was let is the youngest and waits for the creators
/// that have made nothing yet, who has gone on was in the one phase before the turn and is in the other behind it, who
/// has left was live before it, and who has retired did so behind as many others as it says.
pub fn what_is_told_has_happened()
    ensures { (s : Style) (p : Program) (c : Sizes) (turns : List Passed) (t : Passed) →
        AreTurns p c (t ∷ turns) → length t.unit.tenants < 2 ^ 64 →
        AllByRecursion (Happened p (unit_behind turns).tenants t.unit.tenants)
        (events_at s p turns t) }
{}
