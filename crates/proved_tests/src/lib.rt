//! Tests that are proved: that their calls' conditions follow from public clauses is part of what they show. One core by
//! hand, where no script reaches; the totals and the hints that threads share; devices that fail; runs by threads, with
//! their ends, turns, gates and tallies; and snapshots that one thread takes while another publishes.
#![tactic(auto)]

#[cfg(test)]
mod bytes;
#[cfg(test)]
mod calls;
#[cfg(test)]
mod chains;
#[cfg(test)]
mod commands;
#[cfg(test)]
mod devices;
#[cfg(test)]
mod failing;
#[cfg(test)]
mod guesses;
#[cfg(test)]
mod hands;
#[cfg(test)]
mod hinted;
#[cfg(test)]
mod meeting;
#[cfg(test)]
mod passed_on;
#[cfg(test)]
mod places;
#[cfg(test)]
mod same;
#[cfg(test)]
mod snappers;
#[cfg(test)]
mod threads;
#[cfg(test)]
mod totals;
#[cfg(test)]
mod woken;
