//! Tests of counted references under epochs: objects, places, regions, flushes, leaves and images, by one seat and by
//! two.
//!
//! It is for its tests alone, and promises nothing: without them it is empty. Its players are those of `epoch_players`.
//!
//! ```text
//! (SECOND, Act::Look(CELL), Said::Slot(0)),
//! (FIRST, Act::Clear(CELL), Said::Done),
//! (FIRST, Act::Flush, Said::Work(1, 0, 0)),
//! ```
#![tactic(auto)]

#[cfg(test)]
mod rows;
#[cfg(test)]
mod rows_quotas;
#[cfg(test)]
mod tests;
