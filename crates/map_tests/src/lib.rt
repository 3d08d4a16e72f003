//! Tests of an ordered map of versions: reads and updates by one seat, beside a map of the toolchain's, what is refused
//! and what that leaves, keys that come and go in several orders, and threads that write and read.
//!
//! It is for its tests alone, and promises nothing: without them it is empty.
//!
//! A seat plays turns: an update, or a read. What a turn answers was worked out by hand, or is what a `BTreeMap`
//! answers that gets the same changes. Threads only add to numbers, so the sums of what they did are known by hand.
//!
//! ```text
//! change(&rt, &domain, &mut seat, &map, 1, Change::Put(5))      // Ok(None): key 1 had nothing
//! change(&rt, &domain, &mut seat, &map, 1, Change::Bump(2))     // Ok(Some(5))
//! read(&rt, &domain, &mut seat, &map, 1)                        // Some(7)
//! ```
#![tactic(auto)]

#[cfg(test)]
mod calls;
#[cfg(test)]
mod draws;
#[cfg(test)]
mod models;
#[cfg(test)]
mod orders;
#[cfg(test)]
mod tests;
#[cfg(test)]
mod tests_spent;
#[cfg(test)]
mod tests_threads;
