//! The place of a caller in C at which a judge lies, or none.
ghost use Rattle.std.specs.Prelude.{Option};
ghost use Rattle.ruu_judge.specs.declared.held.Held.{Held as Judge};

use crate::held::Held;
use crate::loose::Loose;
use std::alloc::Global;
use std::marker::Model;
use std::mem::replace;
use std::ptr::null_mut;

/// A pointer to a judge in a block of its own, or null. It is what C calls `struct ruu_judge`, and of a type that says nothing
/// of a judge, since C may not look there.
#[repr(C)]
#[derive(Drop)]
pub struct Slot {
    at: *mut u8,
    alloc: Global,
    pub ghost held: { Option Judge },
}

impl Model for Slot {
    ghost use Rattle.ruu_judge.specs.Slots.{held_at};
    ghost use Rattle.ruu_judge.specs.contracts.held.Held.{the_row};

    ghost also_owns = { λ s. held_at the_row s.alloc s.at s.held };
}

impl Slot {
    ghost use Rattle.std.specs.Prelude.{◌≡◌, false, None, Some, MatchOption};

    /// No judge.
    pub(crate) fn closed(alloc: Global) -> Slot
        ensures { result.held ≡ None }
    {
        Slot {
            at: null_mut(),
            alloc,
        }
    }

    /// A judge.
    pub(crate) fn of(loose: Loose<Held, Global>) -> Slot
        ensures { result.held ≡ Some loose.value }
    {
        let Loose { at, alloc } = loose;
        Slot {
            at: at as *mut u8,
            alloc,
        }
    }

    /// The judge, if there is one.
    pub(crate) fn into_loose(self) -> Option<Loose<Held, Global>>
        ensures { MatchOption result (self.held ≡ None) (λ l. self.held ≡ Some l.value) }
    {
        let Slot { at, alloc } = self;
        if at.is_null() {
            None
        } else {
            Some(Loose {
                at: at as *mut Held,
                alloc,
            })
        }
    }

    /// Takes the judge out, if there is one.
    pub(crate) fn taken(&mut self, alloc: Global) -> Option<Box<Held>>
        ensures judge { MatchOption result (self.old.held ≡ None) (λ b. self.old.held ≡ Some b.value) }
        ensures closed { self.new.held ≡ None }
    {
        let slot = replace(self, Slot::closed(alloc));
        match slot.into_loose() {
            Some(loose) => Some(loose.into_box()),
            None => None,
        }
    }

    /// Lays a judge there.
    pub(crate) fn put(&mut self, held: Box<Held>)
        ensures { self.new.held ≡ Some held.value }
    {
        *self = Slot::of(Loose::of(held));
    }

    /// Whether there is a judge.
    pub(crate) fn is_open(&mut self, alloc: Global) -> bool
        ensures same { self.new.held ≡ self.old.held }
        ensures open { result ≡ false → self.old.held ≡ None }
    {
        match self.taken(alloc) {
            Some(held) => {
                self.put(held);
                true
            }
            None => false,
        }
    }
}
