//! Retirement.
ghost use Rattle.std.specs.Prelude.{◌<◌, ◌≡◌, false};
ghost use Rattle.ruu_words.specs.declared.station.StationState.TheVariants.{Stop as ShowsStop};
ghost use Rattle.station.specs.Calls.{RetiresFrom, seen_unit};
ghost use Rattle.station.specs.Retirement.{HasAccess, HasEnd, IsLastOf, MayLeave, RetireAnswers, is_stop, kept_value};
ghost use Rattle.station.specs.Seats.{IsAtHead, IsSameSeat};

use crate::answers::{Last, Retire};
use crate::call::Call;
use crate::cores::Core;
use crate::seat::{BackPart, BackSeat};
use crate::steps::{Access, Leaving};
use crate::words::left_word;
use atomic_table::Seat;
use inorder::wrapped;
use instructions::{Kind, Stop};
use ruu_words::rule::View;
use ruu_words::{InfoWord, OperandState, OperandWord, StationState, StationWord};

fn kept(last: Last) -> u32
    ensures { result ≡ kept_value last }
{
    match last {
        Last::Done(value) => value,
        Last::Stored(..) => 0,
        Last::Stop(code) => code.code(),
    }
}

// The end of a tenant that is done or stops.
fn last_of(state: StationState, value: u32) -> Last
    requires { state ≡ ShowsStop → value < 5 }
    ensures { IsLastOf state value result }
{
    if state == StationState::Stop {
        Last::Stop(Stop::of_code(value))
    } else {
        Last::Done(value)
    }
}

fn ends(last: Last) -> bool
    ensures { result ≡ is_stop last }
{
    matches!(last, Last::Stop(_))
}

impl<'a> Call<'a, BackPart> {
    // Frees the station of the oldest live tenant, which retires.
    fn leave(&mut self, leaving: Leaving) -> Retire
        requires { MayLeave self.old.core.program self.old.core.sizes self.old.view.seen leaving }
        ensures { RetiresFrom self.old self.new leaving.station result }
    {
        let _ = &self.seat;
        let Leaving {
            station,
            tag,
            index,
            half,
            last,
        } = leaving;
        let value = kept(last);
        let free = left_word(tag, value);
        self.retire_tenant(leaving, free);
        Retire::Retired {
            station,
            tag,
            index,
            half,
            last,
        }
    }

    // Retires a store if its data is there. A load with an address still waits for its value.
    fn retire_access(&mut self, access: Access) -> Retire
        requires { HasAccess self.old.core.program self.old.core.sizes self.old.view.seen access }
        ensures { RetiresFrom self.old self.new access.station result }
    {
        let Access {
            station,
            tag,
            index,
            half,
            address,
        } = access;
        let core = self.core;
        let kind = core.program.instr(index as usize).op().kind();
        if kind != Kind::Stores {
            self.tell_waiting(access);
            return Retire::NotDone;
        }
        let found = self.read_data(access);
        let data = OperandWord::unpack(found);
        match data.state {
            OperandState::Wait => Retire::NotDone,
            OperandState::Val => {
                let last = Last::Stored(address, data.value);
                self.leave(Leaving {
                    station,
                    tag,
                    index,
                    half,
                    last,
                })
            }
        }
    }

    // Retires the oldest live tenant if it can. Its word shows an address, a result or a stop.
    fn retire_at_end(&mut self, station: usize, found: StationWord) -> Retire
        requires place { station < self.old.core.sizes.ring }
        requires end { HasEnd self.old.core.program self.old.core.sizes self.old.view.seen
            station found }
        ensures { RetiresFrom self.old self.new station result }
    {
        let _ = &self.seat;
        let info = self.read_info(station);
        let InfoWord { half, index, .. } = InfoWord::unpack(info);
        let StationWord { tag, state, value } = found;
        if state == StationState::Addr {
            let access = Access {
                station,
                tag,
                index,
                half,
                address: value,
            };
            return self.retire_access(access);
        }
        let last = last_of(state, value);
        let leaving = Leaving {
            station,
            tag,
            index,
            half,
            last,
        };
        self.leave(leaving)
    }

    // Looks at the oldest live tenant, which stands at this station, and retires it if it can.
    fn retire_head(&mut self, station: usize) -> Retire
        requires place { station < self.old.core.sizes.ring }
        requires head { IsAtHead self.old.core.sizes (seen_unit self.old) station false }
        ensures { RetiresFrom self.old self.new station result }
    {
        let word = self.look_at_head(station);
        let found = StationWord::unpack(word);
        match found.state {
            StationState::Free => Retire::Empty,
            StationState::Open | StationState::Busy | StationState::Miss => Retire::NotDone,
            StationState::Addr | StationState::Done | StationState::Stop => {
                self.retire_at_end(station, found)
            }
        }
    }

    // Retires the tenant at this station, if it can and no stop has retired.
    fn retire_from(&mut self, station: usize, over: bool) -> Retire
        requires place { station < self.old.core.sizes.ring }
        requires head { IsAtHead self.old.core.sizes (seen_unit self.old) station over }
        ensures { RetiresFrom self.old self.new station result }
    {
        if over {
            self.tell_over(station);
            return Retire::Over;
        }
        self.retire_head(station)
    }
}

impl Core {
    /// Retires the oldest live tenant, if it is done, a store with its address and data, or a stop.
    /// This is commit, the in-order release from the head of Sohi's register update unit, or of the
    /// reorder buffer of Smith and Pleszkun.
    pub fn retire(&self, seat: &mut BackSeat) -> Retire
        requires core { seat.old.core ≡ self.now }
        ensures kept { IsSameSeat seat.old seat.new }
        ensures woken { seat.new.woken ≡ seat.old.woken }
        ensures reply { RetireAnswers self.now.program self.now.sizes seat.old.by seat.old.seen
            seat.new.seen result }
    {
        let station = seat.station;
        let over = seat.over;
        let mut call = Call::<BackPart>::of(self, &mut seat.seat);
        let answer = call.retire_from(station, over);
        let Call { seat: given, .. } = call;
        let _given: &Seat<u8, View> = given;
        if let Retire::Retired { last, .. } = answer {
            seat.station = wrapped(station + 1, self.ring);
            seat.over = ends(last);
        }
        answer
    }
}
