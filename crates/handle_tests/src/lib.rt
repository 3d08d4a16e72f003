//! Tests of the handles of a domain: objects, counted references, places, snapshots, audits, by one seat and by
//! threads.
//!
//! It is for its tests alone, and promises nothing: without them it is empty.
//!
//! A player is a seat with the references that it has. What it does is an act, and each act answers something; so a
//! test is a table of scripts, in which each act stands beside the answer that was worked out by the rules. Threads
//! play acts that a seed draws, whatever they answer, and afterwards nothing may be left.
//!
//! ```text
//! (Act::Make(4), Said::Slot(0)),
//! (Act::Copy(0), Said::Slot(0)),
//! (Act::Count(0), Said::Number(2)),
//! ```
#![tactic(auto)]

#[cfg(test)]
mod acts;
#[cfg(test)]
mod counting_acts;
#[cfg(test)]
mod draws;
#[cfg(test)]
mod opening;
#[cfg(test)]
mod place_acts;
#[cfg(test)]
mod player;
#[cfg(test)]
mod playing;
#[cfg(test)]
mod rows;
#[cfg(test)]
mod rows_audits;
#[cfg(test)]
mod rows_counts;
#[cfg(test)]
mod rows_places;
#[cfg(test)]
mod slot_acts;
#[cfg(test)]
mod snapshot_acts;
#[cfg(test)]
mod sums;
#[cfg(test)]
mod tests;
#[cfg(test)]
mod tests_beside;
#[cfg(test)]
mod tests_spent;
#[cfg(test)]
mod tests_threads;
#[cfg(test)]
mod weak_place_acts;
