//! What steps over the words of an executable have to do with the run of its listing.
#![tactic(auto)]

mod laws;

pub use laws::a_run_of_an_executable_is_its_listings;
