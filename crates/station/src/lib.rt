//! The words that callers share, their seats, and every call on them. Each step is one load, store,
//! swap or compare-exchange of one word; no call waits, and only `Core::make` and `Core::renew` take
//! memory.
//! The words are reservation stations with tags (Tomasulo 1967) in one ring, let and released in
//! program order: Sohi's register update unit, as in SimpleScalar's sim-outorder.
#![tactic(auto)]

mod answers;
mod call;
mod claims;
mod cores;
mod dispatch;
mod job;
mod laws;
mod look;
mod meet;
mod recovery;
mod renewal;
mod results;
mod retirement;
mod seat;
mod steps;
mod wakeup;
mod walk;
mod words;
mod writeback;

pub use answers::{Ask, Claim, Finish, Last, Retire, Seen, Settle, SourceState, Supply, Tenant};
pub use cores::Core;
pub use inorder::history::Source;
pub use job::{Job, abandon};
pub use laws::{
    a_job_ends_at_a_renewal, a_job_is_finished, a_job_is_of_the_program, a_let_can_be_asked,
    a_let_is_out, a_let_leads_on, a_number_is_of_its_part, a_path_stays,
    a_question_leaves_the_other, a_ready_tenant_is_claimed, a_ready_tenant_stays,
    a_renewal_goes_on, a_squash_goes_on, an_empty_core_may_be_renewed, an_info_is_the_last_tenants,
    jobs_stay, mays_stay, no_seat_no_entry, numbers_are_given_once, what_is_seen_is_legal,
};
pub use ruu_words::{LinkWord, StationState};
pub use seat::{BackSeat, FrontSeat, Part, SeatOf, UnitSeat, Writer};
