//! The stations of a unit, compared with those that a table has.
use crate::register::push_register;
use inorder::history::Source;
use instructions::{Half, Kind, Reg};
use isa::{Hexadecimal, InstrText, RegisterStyle};
use replay::{Fate, Operand, Standing, Tenant, Unit};
use sheets::{Awaited, Held};
use std::alloc::{AllocError, Global};

/// What a comparison of stations has found.
#[derive(Drop)]
pub struct Compared {
    pub stations: usize,
    pub right: usize,
    pub text: String,
}

// The unit, the stations of a table, and which instruction each is taken for.
#[derive(Drop)]
struct Comparing<'a> {
    unit: &'a Unit<'a>,
    held: &'a [Held],
    /// The position of the instruction of each row of the schedule.
    rows: &'a [usize],
    found: Vec<Option<usize>>,
}

fn operand(tenant: &Tenant, k: Source) -> Operand {
    match k {
        Source::First => tenant.first,
        Source::Second => tenant.second,
    }
}

fn is_live(tenant: &Tenant) -> bool {
    matches!(tenant.standing, Standing::Live)
}

// A count, and one more if there is one.
fn counted(n: u32, more: bool) -> u32 {
    if more { n.saturating_add(1) } else { n }
}

// An instruction that has no result is in a station; one that has its result may be there.
fn waits(tenant: &Tenant) -> bool {
    is_live(tenant) && matches!(tenant.fate, Fate::Open | Fate::Busy | Fate::Addr(_))
}

impl Comparing<'_> {
    // The position of the instruction of a row.
    fn position_of(&self, row: usize) -> Option<usize> {
        if self.rows.is_empty() {
            return Some(row);
        }
        self.rows.get(row).copied()
    }

    // The number of the row of an instruction, from 1 on.
    fn number_of(&self, position: usize) -> usize {
        match self.rows.iter().rposition(|at| *at <= position) {
            Some(row) => row.saturating_add(1),
            None => position.saturating_add(1),
        }
    }

    fn is_taken(&self, position: usize) -> bool {
        self.found.iter().any(|found| *found == Some(position))
    }

    // How many cells of a station are those of an instruction; none where it cannot be this instruction.
    fn likeness(&self, held: &Held, position: usize, tenant: &Tenant) -> Option<u32> {
        let instr = self.unit.instr(tenant);
        if held.op != Some(instr.op()) || !is_live(tenant) || self.is_taken(position) {
            return None;
        }
        if let Some(row) = held.row {
            return if self.position_of(row) == Some(position) {
                Some(u32::MAX)
            } else {
                None
            };
        }
        Some(self.cells_alike(held, tenant))
    }

    // How many cells of a station are those of an instruction. One that waits is likelier than one that has its result.
    fn cells_alike(&self, held: &Held, tenant: &Tenant) -> u32 {
        let ([first, second], [first_from, second_from]) = (held.values, held.awaited);
        let mut like = if waits(tenant) { 8 } else { 0 };
        for is_alike in [
            first == tenant.first.value,
            second == tenant.second.value,
            self.names(first_from, tenant.first.creator),
            self.names(second_from, tenant.second.creator),
            held.address.is_some() && held.address == address_of(self.unit, tenant),
        ] {
            like = counted(like, is_alike);
        }
        like
    }

    // A cell names the row of this instruction.
    fn names(&self, awaited: Awaited, creator: Option<usize>) -> bool {
        match (awaited, creator) {
            (Awaited::Row(row), Some(creator)) => self.is_maker(self.position_of(row), creator),
            _ => false,
        }
    }

    // The creator of a value is an instruction at this position, or the second half of the multiplication or division there.
    fn is_maker(&self, position: Option<usize>, creator: usize) -> bool {
        let Some(position) = position else {
            return false;
        };
        match self.unit.tenant(creator) {
            Some(tenant) if tenant.half == Half::High => {
                position == creator || position.saturating_add(1) == creator
            }
            _ => position == creator,
        }
    }

    // The oldest instruction that is most like a station.
    fn most_like(&self, held: &Held) -> Option<usize> {
        let mut best: Option<(u32, usize)> = None;
        for position in self.unit.settled.upto..self.unit.tenants.len() {
            let Some(tenant) = self.unit.tenant(position) else {
                break;
            };
            if let Some(like) = self.likeness(held, position, &tenant) {
                if best.is_none_or(|(most, _)| like > most) {
                    best = Some((like, position));
                }
            }
        }
        Some(best?.1)
    }

    fn find_all(&mut self) -> Result<(), AllocError> {
        for held in self.held {
            let found = if held.is_busy {
                self.most_like(held)
            } else {
                None
            };
            self.found.push(found)?;
        }
        Ok(())
    }

    // Whom a cell names.
    fn awaited(&self, awaited: Awaited) -> Option<usize> {
        match awaited {
            Awaited::Station(station) => match self.found.as_slice().get(station) {
                Some(found) => *found,
                None => None,
            },
            Awaited::Row(row) => self.position_of(row),
            Awaited::Nobody | Awaited::Unknown => None,
        }
    }
}

// The address of a load or store, or before it is computed the number that is added.
fn address_of(unit: &Unit<'_>, tenant: &Tenant) -> Option<u32> {
    match (unit.kind(tenant), tenant.fate) {
        (Kind::Loads | Kind::Stores, Fate::Addr(address)) => Some(address),
        (Kind::Loads | Kind::Stores, _) => Some(unit.instr(tenant).number()),
        _ => None,
    }
}

// What a source of a station's instruction is, beside what its cells say.
#[derive(Clone, Copy)]
struct Sourced {
    k: Source,
    /// The instruction reads a register there, which may be register 0.
    is_register: bool,
    is_zero: bool,
    operand: Operand,
    value: Option<u32>,
    awaited: Awaited,
}

fn source_of(unit: &Unit<'_>, held: &Held, tenant: &Tenant, k: Source) -> Sourced {
    let instr = unit.instr(tenant);
    let ([first, second], [first_from, second_from]) = (held.values, held.awaited);
    let (number, value, awaited) = match k {
        Source::First => (1, first, first_from),
        Source::Second => (2, second, second_from),
    };
    Sourced {
        k,
        is_register: instr.source(number).is_some(),
        is_zero: instr.source(number) == Some(Reg::ZERO),
        operand: operand(tenant, k),
        value,
        awaited,
    }
}

fn letter(k: Source) -> &'static str {
    match k {
        Source::First => "j",
        Source::Second => "k",
    }
}

impl Comparing<'_> {
    fn push_source(&self, out: &mut String, tenant: &Tenant, k: Source) -> Result<(), AllocError> {
        let instr = self.unit.instr(tenant);
        push_register(
            out,
            match k {
                Source::First => instr.first(),
                Source::Second => instr.second(),
            },
        )
    }

    // A source has its value, which the cells have too.
    fn check_value(
        &self,
        out: &mut String,
        tenant: &Tenant,
        source: &Sourced,
        is: u32,
    ) -> Result<(), AllocError> {
        let j = letter(source.k);
        let hexadecimal = Hexadecimal(is);
        if source.value != Some(is) && !(source.is_zero && source.value.is_none()) {
            write!(out, " V{j}: ")?;
            self.push_source(out, tenant, source.k)?;
            write!(out, " is {hexadecimal}.")?;
        }
        if !matches!(source.awaited, Awaited::Nobody) {
            write!(out, " Q{j}: ")?;
            self.push_source(out, tenant, source.k)?;
            out.push_str(" is there, and nobody is waited for.")?;
        }
        Ok(())
    }

    // A source waits for an instruction, which the cells name.
    fn check_wait(
        &self,
        out: &mut String,
        tenant: &Tenant,
        source: &Sourced,
        creator: usize,
    ) -> Result<(), AllocError> {
        let j = letter(source.k);
        if source.value.is_some() {
            write!(out, " V{j}: ")?;
            self.push_source(out, tenant, source.k)?;
            out.push_str(" is not there yet.")?;
        }
        if !self.is_maker(self.awaited(source.awaited), creator) {
            let number = self.number_of(creator);
            write!(out, " Q{j}: ")?;
            self.push_source(out, tenant, source.k)?;
            write!(out, " comes from row {number}.")?;
        }
        Ok(())
    }

    // Where the instruction reads no register, an immediate may stand, and nobody is waited for.
    fn check_source(
        &self,
        out: &mut String,
        tenant: &Tenant,
        source: &Sourced,
    ) -> Result<(), AllocError> {
        match (
            source.is_register,
            source.operand.value,
            source.operand.creator,
        ) {
            (true, Some(is), _) => self.check_value(out, tenant, source, is),
            (true, None, Some(creator)) => self.check_wait(out, tenant, source, creator),
            _ => {
                let number = self.unit.instr(tenant).number();
                let j = letter(source.k);
                if source.value.is_some_and(|value| value != number) {
                    write!(out, " V{j}: no register is read there.")?;
                }
                if !matches!(source.awaited, Awaited::Nobody) {
                    write!(out, " Q{j}: no register is read there.")?;
                }
                Ok(())
            }
        }
    }

    fn check_address(
        &self,
        out: &mut String,
        held: &Held,
        tenant: &Tenant,
    ) -> Result<(), AllocError> {
        match (address_of(self.unit, tenant), held.address) {
            (Some(is), address) if address != Some(is) => {
                let is = Hexadecimal(is);
                write!(out, " A: it is {is}.")
            }
            (None, Some(_)) => out.push_str(" A: it is no load and no store."),
            _ => Ok(()),
        }
    }

    // What is wrong with a station.
    fn faults(&self, alloc: Global, at: usize, held: &Held) -> Result<String, AllocError> {
        let mut out = String::new(alloc);
        let found = match self.found.as_slice().get(at) {
            Some(found) => *found,
            None => None,
        };
        let tenant = match found {
            Some(position) => self.unit.tenant(position),
            None => None,
        };
        match tenant {
            None if held.is_busy => out.push_str(
                " Op: no other instruction in flight has this operation.",
            )?,
            None => {}
            Some(tenant) => {
                for k in [Source::First, Source::Second] {
                    let source = source_of(self.unit, held, &tenant, k);
                    self.check_source(&mut out, &tenant, &source)?;
                }
                self.check_address(&mut out, held, &tenant)?;
            }
        }
        Ok(out)
    }

    // An instruction waits in no station. Both halves of a multiplication or division are in one, and what reads no register
    // needs none.
    fn is_unheld(&self, position: usize, tenant: &Tenant) -> bool {
        let instr = self.unit.instr(tenant);
        let reads = instr.source(1).is_some() || instr.source(2).is_some();
        reads && waits(tenant) && tenant.half == Half::Low && !self.is_taken(position)
    }

    // The instructions that wait, and are in no station of the table.
    fn push_unheld(&self, out: &mut String) -> Result<bool, AllocError> {
        let mut is_whole = true;
        for position in self.unit.settled.upto..self.unit.tenants.len() {
            match self.unit.tenant(position) {
                Some(tenant) if self.is_unheld(position, &tenant) => {
                    let number = self.number_of(position);
                    let text = InstrText {
                        naming: RegisterStyle::Names,
                        instr: self.unit.instr(&tenant),
                    };
                    write!(out, "row {number}, {text}, waits in no station\n")?;
                    is_whole = false;
                }
                _ => {}
            }
        }
        Ok(is_whole)
    }
}

/// Compares the stations of a table with a unit. The positions are those of the rows of the schedule; without any, row n is the nth
/// instruction that was let.
pub fn stations_compared<'a>(
    alloc: Global,
    unit: &'a Unit<'a>,
    held: &'a [Held],
    rows: &'a [usize],
) -> Result<Compared, AllocError> {
    let mut comparing = Comparing {
        unit,
        held,
        rows,
        found: Vec::new(alloc),
    };
    comparing.find_all()?;
    let mut text = String::new(alloc);
    let mut right = 0usize;
    for (at, station) in held.iter().enumerate() {
        let faults = comparing.faults(alloc, at, station)?;
        if faults.is_empty() {
            right = right.saturating_add(1);
        } else {
            let (number, faults) = (at.saturating_add(1), faults.as_str());
            write!(&mut text, "station {number}:{faults}\n")?;
        }
    }
    let is_whole = comparing.push_unheld(&mut text)?;
    let stations = held.len();
    write!(&mut text, "{right} of {stations} stations are right\n")?;
    Ok(Compared {
        stations: stations.saturating_add(usize::from(!is_whole)),
        right,
        text,
    })
}
