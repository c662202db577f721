//! Lets.
ghost use Rattle.std.specs.Prelude.{◌<◌, ◌^◌, ◌∷◌, ◌≡◌, []};
ghost use Rattle.inorder.specs.Unit.{next_tag, recent};
ghost use Rattle.ruu_words.specs.declared.rule.Draft.TheVariants.{Nothing};
ghost use Rattle.station.specs.Calls.{HasLetOut, IsAbout};
ghost use Rattle.station.specs.Letting.{MayLetOut, let_of};
ghost use Rattle.station.specs.Seats.{IsSameSeat};
ghost use Rattle.inorder.specs.History.{unit_of};
ghost use Rattle.inorder.specs.OneHistory.{Adds};

use crate::answers::Tenant;
use crate::call::Call;
use crate::cores::Core;
use crate::seat::{FrontPart, FrontSeat};
use crate::words::{open_word, operand_word};
use atomic_table::Seat;
use inorder::wrapped;
use ruu_words::rule::View;
use ruu_words::{InfoWord, Place, StationWord};

impl<'a> Call<'a, FrontPart> {
    // Stores the words of the tenant, the station's last, and gives its tag.
    fn dispatch(&mut self, station: usize, tenant: Tenant) -> u32
        requires letting { IsAbout self.old station Nothing tenant }
        requires small { tenant.index < 2 ^ 31 }
        ensures { HasLetOut self.old self.new tenant result }
    {
        let _ = &self.seat;
        let found = self.look(Place::Station(station));
        let StationWord { tag, .. } = StationWord::unpack(found);
        let info = InfoWord {
            half: tenant.half,
            index: tenant.index,
            predicted: tenant.predicted,
        };
        let info_word = info.pack();
        let first = operand_word(tag, tenant.sources.0);
        let second = operand_word(tag, tenant.sources.1);
        let open = open_word(tag);
        self.store_info(station, info_word, tenant);
        self.store_first(station, first, tenant);
        self.store_second(station, second, tenant);
        self.let_tenant(station, open, tenant);
        tag
    }
}

impl Core {
    /// Lets a tenant out to the next station and gives its tag. It may be let in what the front has
    /// seen; its tag and where its sources come from are then those of the unit.
    /// This is dispatch: an instruction takes a reservation station (Tomasulo 1967), here the next
    /// of a ring in program order, as in Sohi's register update unit.
    pub fn let_out(&self, seat: &mut FrontSeat, tenant: Tenant) -> u32
        requires core { seat.old.core ≡ self.now }
        requires may { MayLetOut self.now.program self.now.sizes
            (unit_of self.now.program self.now.sizes seat.old.seen) tenant }
        ensures kept { IsSameSeat seat.old seat.new }
        ensures history { Adds self.now.program self.now.sizes seat.old.by seat.old.seen
            seat.new.seen (let_of tenant ∷ []) }
        ensures reply { result ≡ next_tag self.now.sizes
            (recent (unit_of self.now.program self.now.sizes seat.old.seen)) }
    {
        let ring = self.ring;
        let station = seat.station;
        let mut call = Call::<FrontPart>::of(self, &mut seat.seat);
        let tag = call.dispatch(station, tenant);
        let Call { seat: given, .. } = call;
        let _given: &Seat<u8, View> = given;
        seat.station = wrapped(station + 1, ring);
        tag
    }
}
