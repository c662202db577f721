//! Cores.
ghost use Rattle.std.specs.Prelude.{◌≡◌, ◌≤◌, ◌<◌, IfOk};
ghost use Rattle.ruu_words.specs.Fields.{tag_count};
ghost use Rattle.ruu_words.specs.Openings.{IsOpening, opening_of, sizes_of};
ghost use Rattle.ruu_words.specs.Rule.{IsStart};
ghost use Rattle.station.specs.Making.{AreFirst, IsCore, IsFirstTable, IsNewCore, IsSetup};
ghost use Rattle.station.specs.Seats.{core_of};

use crate::seat::{BackSeat, FrontSeat, SeatOf, UnitSeat};
use atomic_table::{Badge, Seat, Split, Table};
use instructions::{Config, Memory, Program};
use ruu_words::rule::{OneHistory, Setup, View};
use ruu_words::{StationState, StationWord, word_count};
use std::alloc::Global;
use std::marker::Model;

// The table of a core, whose slots hold nothing.
pub(crate) type Stations = Table<u8, View, Setup, OneHistory, Global>;

/// The shared words of one unit, and a copy of its program.
/// The words are those of a register update unit (Sohi): reservation stations in a ring, and links.
#[derive(Drop)]
pub struct Core {
    pub(crate) table: Stations,
    pub(crate) program: Program,
    pub(crate) ring: usize,
    pub(crate) queue: usize,
    pub(crate) first_tag: u32,
}

impl Model for Core {
    ghost use Rattle.station.specs.Making.{IsCore};
    ghost use Rattle.station.specs.Seats.{TheCore, core_of};

    ghost Value = { TheCore };

    ghost view = { λ c. core_of c.table.shared.table_id c.table.shared.key };

    ghost invariant = { λ c.
        IsCore c.table.shared.table_id.words c.table.shared.key c.program c.ring c.queue c.first_tag };
}

// The first seat becomes the front's, and the back's is new.
struct BackCut;

impl Split<View> for BackCut {
    ghost use Rattle.ruu_words.specs.Views.{nobody, view, without_first};
    ghost use Rattle.ruu_words.specs.declared.rule.Draft.TheVariants.{Nothing};
    ghost use Rattle.ruu_words.specs.declared.rule.Role.TheVariants.{Back, Front};

    ghost left = { λ v. view Front v.by (without_first v.spare) v.seen v.draft };

    ghost right = { λ v. view Back v.spare.first nobody v.seen Nothing };
}

// The first unit's seat may give away all numbers after its own.
struct FirstCut;

impl Split<View> for FirstCut {
    ghost use Rattle.ruu_words.specs.Views.{nobody, view, without_first};
    ghost use Rattle.ruu_words.specs.declared.rule.Draft.TheVariants.{Nothing};
    ghost use Rattle.ruu_words.specs.declared.rule.Role.TheVariants.{Worker};

    ghost left = { λ v. view v.role v.by nobody v.seen v.draft };

    ghost right = { λ v. view Worker v.spare.first (without_first v.spare) v.seen Nothing };
}

fn setup_of(alloc: Global, program: &Program, config: &Config) -> Result<Setup, Memory>
    ensures { IfOk result (λ s. IsSetup program.now config.now s) }
{
    let program = program.copied(alloc)?;
    let ring = config.ring() as usize;
    let queue = config.queue() as usize;
    let first_tag = config.first_tag();
    let opening = Badge::blank();
    Ok(Setup {
        program,
        ring,
        queue,
        first_tag,
        opening,
    })
}

// Each station is free, with the first tag, and all other words are 0.
fn first_words(alloc: Global, setup: &Setup) -> Result<Vec<u64>, Memory>
    requires ring { setup.now.ring ≤ 32 }
    requires tag { setup.now.first_tag < tag_count }
    ensures { IfOk result (λ words. IsStart (sizes_of setup.now) words.items) }
{
    let free = StationWord {
        tag: setup.first_tag,
        state: StationState::Free,
        value: 0,
    };
    let word = free.pack();
    let count = word_count(setup.ring);
    let mut words = Vec::from_elem(alloc, 0, count)?;
    for s in 0..setup.ring {
        words[s] = word;
    }
    Ok(words)
}

// A table of first words, which opens with what the setup has.
pub(crate) fn first_table(
    alloc: Global,
    setup: &Setup,
) -> Result<(Stations, Seat<u8, View>), Memory>
    requires opening { IsOpening setup.now.program (sizes_of setup.now) (opening_of setup.now) }
    requires ring { setup.now.ring ≤ 32 }
    requires tag { setup.now.first_tag < tag_count }
    ensures { IfOk result (λ t. IsFirstTable setup.now t.0.shared.table_id t.0.shared.key
        t.1.table_id t.1.me) }
{
    let words = first_words(alloc, setup)?;
    Ok(Table::of_words(alloc, words.as_slice(), setup)?)
}

impl Core {
    /// A core for this program, with the front's seat, the back's and a unit's; `split` makes more of these. None has seen
    /// anything. A refusal is for memory, and makes nothing.
    pub fn make(
        alloc: Global,
        program: &Program,
        config: &Config,
    ) -> Result<(Core, FrontSeat, BackSeat, UnitSeat), Memory>
        ensures { IfOk result (λ t. IsNewCore program.now config.now t.0 t.1 t.2 t.3) }
    {
        let setup = setup_of(alloc, program, config)?;
        let (table, first) = first_table(alloc, &setup)?;
        Ok(Core::deal(table, first, setup))
    }

    // The core of a new table, and its first seats.
    pub(crate) fn deal(
        table: Stations,
        mut first: Seat<u8, View>,
        setup: Setup,
    ) -> (Core, FrontSeat, BackSeat, UnitSeat)
        requires core { IsCore table.shared.table_id.words setup setup.program setup.ring
            setup.queue setup.first_tag }
        requires opening { IsOpening setup.program (sizes_of setup) (opening_of setup) }
        requires table { IsFirstTable setup table.shared.table_id table.shared.key
            first.table_id first.me }
        ensures core { result.0 ≡ core_of table.shared.table_id setup }
        ensures seats { AreFirst result.0 result.1 result.2 result.3 }
    {
        let back = table.shared.split_seat::<BackCut>(&mut first);
        let unit = table.shared.split_seat::<FirstCut>(&mut first);
        let front_seat = SeatOf::first_seat(first, &table.shared);
        let back_seat = SeatOf::first_seat(back, &table.shared);
        let unit_seat = SeatOf::first_seat(unit, &table.shared);
        let (core, _opening) = Core::of(table, setup);
        (core, front_seat, back_seat, unit_seat)
    }

    // A table's setup cannot be shared by threads, and its parts can. What it opens with is left over.
    pub(crate) fn of(table: Stations, setup: Setup) -> (Core, Badge<View>)
        requires { IsCore table.shared.table_id.words table.shared.key setup.program setup.ring
            setup.queue setup.first_tag }
        ensures core { result.0 ≡ core_of table.shared.table_id table.shared.key }
        ensures opening { result.1 ≡ setup.opening }
    {
        let Setup {
            program,
            ring,
            queue,
            first_tag,
            opening,
        } = setup;
        let core = Core {
            table,
            program,
            ring,
            queue,
            first_tag,
        };
        (core, opening)
    }

    // The core in two: its table, and the setup of a table that opens with this badge.
    pub(crate) fn apart(self, badge: Badge<View>) -> (Stations, Setup)
        ensures core { self ≡ core_of result.0.shared.table_id result.0.shared.key }
        ensures kept { IsCore result.0.shared.table_id.words result.0.shared.key result.1.program
            result.1.ring result.1.queue result.1.first_tag }
        ensures opening { result.1.opening ≡ badge }
    {
        let Core {
            table,
            program,
            ring,
            queue,
            first_tag,
        } = self;
        let setup = Setup {
            program,
            ring,
            queue,
            first_tag,
            opening: badge,
        };
        (table, setup)
    }

    /// The program of its instructions.
    pub fn program(&self) -> &Program
        ensures { result.now ≡ self.now.program }
    {
        &self.program
    }

    /// How many reservation stations there are.
    pub fn ring(&self) -> usize
        ensures value { result ≡ self.now.sizes.ring }
        ensures least { 2 ≤ result }
        ensures most { result ≤ 32 }
    {
        self.ring
    }

    /// How many loads and stores are in flight at most.
    pub fn queue(&self) -> usize
        ensures value { result ≡ self.now.sizes.queue }
        ensures least { 2 ≤ result }
    {
        self.queue
    }
}
