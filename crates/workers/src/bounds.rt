//! The totals and the configuration of one run, as contracts name them.
use std::marker::Brand;

/// The bounds of one run, in the proof alone: its totals, and how it is configured.
pub trait Bounds {
    ghost use Rattle.atomic_table.specs.Seated.{TableId};
    ghost use Rattle.instructions.specs.Settings.{Settings};

    ghost counts: { TableId };

    ghost config: { Settings };
}

impl Bounds for Brand {
    ghost use Rattle.workers.specs.Configured.{no_settings, no_table};

    ghost counts = { no_table };

    ghost config = { no_settings };
}
