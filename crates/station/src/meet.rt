//! Meetings: the history that one caller has seen reaches another.
ghost use Rattle.std.specs.Prelude.{◌≡◌, ◌≢◌, []};
ghost use Rattle.inorder.specs.History.{own};
ghost use Rattle.instructions.specs.Histories.{StartsWith};
ghost use Rattle.ruu_words.specs.Views.{half, other_half};
ghost use Rattle.station.specs.Renewals.{HasLooked};
ghost use Rattle.station.specs.Seats.{IsSameSeat};
ghost use Rattle.inorder.specs.OneHistory.{Adds};

use crate::call::Call;
use crate::cores::Core;
use crate::seat::{Part, SeatOf, UnitPart, UnitSeat};
use atomic_table::{Join, Seat, Split};
use ruu_words::Place;
use ruu_words::rule::View;
use std::marker::PhantomData;
use std::snapshot::Snapshot;

// A seat takes over the history of a note, which is a seat that makes no calls.
pub(crate) struct Told;

impl Join<View> for Told {
    ghost use Rattle.std.specs.Prelude.{[]};
    ghost use Rattle.ruu_words.specs.Views.{informed, nobody, view};
    ghost use Rattle.ruu_words.specs.declared.rule.Draft.TheVariants.{Nothing};
    ghost use Rattle.ruu_words.specs.declared.rule.Role.TheVariants.{Spent};

    ghost both = { informed };

    ghost spent = { view Spent 0 nobody [] Nothing };
}

// A note is cut from a seat, with the history that the seat has seen.
pub(crate) struct NoteCut;

impl Split<View> for NoteCut {
    ghost use Rattle.ruu_words.specs.Views.{nobody, view};
    ghost use Rattle.ruu_words.specs.declared.rule.Draft.TheVariants.{Nothing};
    ghost use Rattle.ruu_words.specs.declared.rule.Role.TheVariants.{Spent};

    ghost left = { λ v. view v.role v.by v.spare v.seen v.draft };

    ghost right = { λ v. view Spent 0 nobody v.seen Nothing };
}

// A new unit's seat is cut from a seat, with the history that the seat has seen. Each may give away half of
// the numbers that the seat could.
pub(crate) struct UnitCut;

impl Split<View> for UnitCut {
    ghost use Rattle.ruu_words.specs.Views.{half, other_half, view};
    ghost use Rattle.ruu_words.specs.declared.rule.Draft.TheVariants.{Nothing};
    ghost use Rattle.ruu_words.specs.declared.rule.Role.TheVariants.{Worker};

    ghost left = { λ v. view v.role v.by (half v.spare) v.seen v.draft };

    ghost right = { λ v. view Worker v.spare.first (other_half v.spare) v.seen Nothing };
}

impl Core {
    /// Two unit seats that have both seen what this one had seen. The first is the same caller's, and
    /// the second that of a caller who has done nothing at this core. Read `woken` before: it is 0 in both.
    pub fn split(&self, mut seat: UnitSeat) -> (UnitSeat, UnitSeat)
        requires core { seat.core ≡ self.now }
        ensures first { result.0 ≡ record seat { spare = half seat.spare; woken = 0 } }
        ensures core { result.1.core ≡ self.now }
        ensures history { result.1.seen ≡ seat.seen }
        ensures number { result.1.by ≡ seat.spare.first }
        ensures spare { result.1.spare ≡ other_half seat.spare }
        ensures other { result.1.by ≢ result.0.by }
        ensures fresh { own result.1.by result.1.seen ≡ own result.1.by self.now.opening }
        ensures woken { result.1.woken ≡ 0 }
    {
        let other = self.table.shared.split_seat::<UnitCut>(&mut seat.seat);
        let other_seat = SeatOf {
            seat: other,
            words: Snapshot::of(&self.table.shared),
            station: 0,
            over: false,
            woken: 0,
            part: PhantomData,
        };
        seat.woken = 0;
        (seat, other_seat)
    }

    // Tells the second caller the history that the first has seen.
    pub(crate) fn tell<P: Part, Q: Part>(&self, from: &mut SeatOf<P>, to: &mut SeatOf<Q>)
        requires from { from.old.core ≡ self.now }
        requires to { to.old.core ≡ self.now }
        ensures from { from.new ≡ from.old }
        ensures looked { HasLooked self.now to.old to.new }
        ensures told { StartsWith to.new.seen from.old.seen }
    {
        let note = self.table.shared.split_seat::<NoteCut>(&mut from.seat);
        self.table.shared.join_seat::<Told>(&mut to.seat, note);
        let mut call = Call::<Q>::of(self, &mut to.seat);
        call.look(Place::Station(0));
        let Call { seat: given, .. } = call;
        let _given: &Seat<u8, View> = given;
    }

    /// Tells each of two callers what the other has seen. Any two seats can meet. To a caller that never meets another, a
    /// refusal may speak of an early moment.
    pub fn meet<P: Part, Q: Part>(&self, one: &mut SeatOf<P>, other: &mut SeatOf<Q>)
        requires one { one.old.core ≡ self.now }
        requires other { other.old.core ≡ self.now }
        ensures one_kept { IsSameSeat one.old one.new }
        ensures one_spare { one.new.spare ≡ one.old.spare }
        ensures one_woken { one.new.woken ≡ one.old.woken }
        ensures one_history { Adds self.now.program self.now.sizes one.old.by one.old.seen
            one.new.seen [] }
        ensures one_told { StartsWith one.new.seen other.old.seen }
        ensures other_kept { IsSameSeat other.old other.new }
        ensures other_spare { other.new.spare ≡ other.old.spare }
        ensures other_woken { other.new.woken ≡ other.old.woken }
        ensures other_history { Adds self.now.program self.now.sizes other.old.by other.old.seen
            other.new.seen [] }
        ensures other_told { StartsWith other.new.seen one.new.seen }
    {
        self.tell(other, one);
        self.tell(one, other);
    }
}
