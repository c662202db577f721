//! What stays true between calls. Each function is a law: it does nothing, and its contract is proved.
ghost use Rattle.std.specs.Prelude.{◌≡◌, ℕ};
ghost use Rattle.inorder.specs.History.{IsLegal, own};
ghost use Rattle.ruu_words.specs.Views.{IsCaller, IsSpare};
ghost use Rattle.station.specs.Finishing.{ClaimedAreInFlight, JobsAreFinished, JobsStayInFlight};
ghost use Rattle.station.specs.Following.{LetsAreAsked, MissesAreRecovered, MissesStaySeen, MissesStaySquashing, QuestionsLeaveOthers};
ghost use Rattle.station.specs.Infos.{InfosElsewhere};
ghost use Rattle.station.specs.Laws.{BacksStay, FrontsStay, JobsAreOfTheProgram, JobsEndAtARenewal, JobsStay, JobsStayClaiming, JobsStayFinishing, JobsStaySeen};
ghost use Rattle.station.specs.Paths.{LetsLead, PathsStay, RenewalsGoOn};
ghost use Rattle.station.specs.Renewals.{EmptyCoresMayBeRenewed, NoStopStays, NobodyStays};
ghost use Rattle.station.specs.Quiet.{ClaimsGiveJobs, LetsAreOut, ReadyTenantsStay, SplitsShareNumbers, UnitsAreNumbered};

use crate::seat::{Part, SeatOf, UnitSeat};

/// A job stays its caller's until the caller finishes it.
pub fn jobs_stay()
    ensures all { JobsStay }
    ensures seen { JobsStaySeen }
    ensures claiming { JobsStayClaiming }
    ensures finishing { JobsStayFinishing }
{}

/// After a renewal no unit holds a job from before it.
pub fn a_job_ends_at_a_renewal()
    ensures { JobsEndAtARenewal }
{}

/// Where the front has seen that nobody is live, and the back that no stop has retired, that stays so
/// while the two only look and meet, and a renewal is allowed after what both have then seen.
pub fn an_empty_core_may_be_renewed()
    ensures nobody { NobodyStays }
    ensures no_stop { NoStopStays }
    ensures may { EmptyCoresMayBeRenewed }
{}

/// The front and the back may still do what they might, where they have only looked and met since.
pub fn mays_stay()
    ensures front { FrontsStay }
    ensures back { BacksStay }
{}

/// While the front adds nothing the path goes on at the same place, each register has the same creator,
/// and what was made stays.
pub fn a_path_stays()
    ensures { PathsStay }
{}

/// After a let the path goes on at its predicted next pc, at the next station, as the half that comes
/// then, and no other register has another creator.
pub fn a_let_leads_on()
    ensures { LetsLead }
{}

/// After a renewal the path goes on at the pc and half where the front had left it, at station 0 with
/// the first tag. Each register has the creator that it had, and what was made stays.
pub fn a_renewal_goes_on()
    ensures { RenewalsGoOn }
{}

/// The answer of `info` for a station where the next tenant does not go is that of its last tenant.
pub fn an_info_is_the_last_tenants()
    ensures { InfosElsewhere }
{}

/// The history that a caller has seen is legal.
pub fn what_is_seen_is_legal<P: Part>(seat: &SeatOf<P>)
    ensures { IsLegal seat.now.core.program seat.now.core.sizes seat.now.seen }
{
    let _over = seat.over;
}

/// A caller's number is one of its part: 0 of the front, 1 of the back, and a greater one of a unit.
pub fn a_number_is_of_its_part<P: Part>(seat: &SeatOf<P>)
    ensures { IsCaller P.role seat.now.by }
{
    let _over = seat.over;
}

/// A unit without a seat has done nothing: its number is given by `make`, `renew` or `split`, and those
/// that a seat may still give away have no entry, after that with which the core opened, in what its
/// caller has seen.
pub fn no_seat_no_entry(seat: &UnitSeat)
    ensures { (n : ℕ) → IsSpare seat.now.spare n → own n seat.now.seen ≡
        own n seat.now.core.opening }
{
    let _over = seat.over;
}

/// The numbers that there are to give away, and to whom they go at a split.
pub fn numbers_are_given_once()
    ensures all { UnitsAreNumbered }
    ensures split { SplitsShareNumbers }
{}

/// The tenant that was let stands at the next station, with its instruction and the values that were
/// known, and is open unless a unit has done something since.
pub fn a_let_is_out()
    ensures { LetsAreOut }
{}

/// An open tenant that has all that it needs stays so while nobody does anything but the back.
pub fn a_ready_tenant_stays()
    ensures { ReadyTenantsStay }
{}

/// A claim at the station of an open tenant that has all that it needs is a job, with the values of
/// that tenant, unless another unit or the front does something meanwhile.
pub fn a_ready_tenant_is_claimed()
    ensures { ClaimsGiveJobs }
{}

/// The instruction of a job is one of the program.
pub fn a_job_is_of_the_program()
    ensures { JobsAreOfTheProgram }
{}

/// Where neither the front nor the back does anything, a claimed tenant is live and stays so, its
/// finish is in time, and the tenant then has the outcome of its job.
pub fn a_job_is_finished()
    ensures claimed { ClaimedAreInFlight }
    ensures stays { JobsStayInFlight }
    ensures finished { JobsAreFinished }
{}

/// A tenant that was let with a source from its creator can be asked for that source.
pub fn a_let_can_be_asked()
    ensures { LetsAreAsked }
{}

/// A question for one source leaves the question for the other one.
pub fn a_question_leaves_the_other()
    ensures { QuestionsLeaveOthers }
{}

/// A live miss stays one while the front looks and squashes others, and there is either a younger
/// live tenant, which may be squashed, or the miss can be mended.
pub fn a_squash_goes_on()
    ensures seen { MissesStaySeen }
    ensures squash { MissesStaySquashing }
    ensures next { MissesAreRecovered }
{}
