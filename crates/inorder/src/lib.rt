//! The in-order machine, the one-thread unit, and the theorem that the unit is right.
#![tactic(auto)]

mod accesses;
mod committed;
pub mod data;
mod guards;
pub mod history;
mod laws;
mod machine;
mod progress;
mod ring;
mod speculation;

pub use accesses::{access_entry, access_width, is_store};
pub use committed::Committed;
pub use guards::{
    a_delivery_reaches_who_asked, a_load_passes_no_unknown_store, a_miss_does_not_retire,
    a_retired_stop_ends_the_unit, a_squashed_tenant_stays_squashed, a_tenant_is_claimed_once,
    recovery_restores,
};
pub use laws::{
    a_claim_is_answered, a_finish_is_answered, a_renewal_begins_again,
    a_retired_stop_is_not_renewed, a_retirement_is_answered, a_tag_names_one_tenant,
    a_value_of_before_is_known, fates_follow, histories_grow, loads_are_answered_right,
    no_wake_is_lost, nothing_is_past_without_a_renewal, one_legal_history,
    one_thread_unit_is_right, only_retirements_commit, operands_follow, ring_is_right,
    several_steps_lead_on, stations_follow, values_are_words, what_is_past_is_past,
};
pub use machine::{Ended, Machine, Stepped};
pub use progress::{a_unit_is_never_stuck, acts_run_out, lets_run_out};
pub use ring::wrapped;
pub use speculation::{
    a_done_load_is_sure, a_flush_restores, a_guess_does_not_retire,
    nobody_of_a_shared_unit_speculates,
};
