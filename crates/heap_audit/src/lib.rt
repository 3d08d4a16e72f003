//! The audit of a heap of counted objects, which shows a cycle of strong references to a user.
//!
//! The rules, which `specs/` has as definitions: a slot is Live where its strong word has no zero flag. Its owned
//! references are its strong count less its entries in strong cells, strong fields and deferred strong entries. A
//! Live slot is *unreached* where no slot with an owned reference, in a strong cell or in a deferred strong entry leads
//! to it along strong fields of Live slots, in any number of steps. `audit` counts the Live slots, the deferred
//! entries and the unreached slots, adds up the weights of the Live ones, and finds a walk round a cycle of unreached
//! slots, if there are any. `check_walk` tests such a walk by itself.
//!
//! An audit asks for a lawful heap: each Live slot has a strong count of at least 1 and at least its entries, and
//! every other slot has null fields and no entry. `lawful` tells whether a heap is. Nothing is promised of other
//! heaps, nor that every cycle is shown: the walk goes round the one that the search from the unreached slot of least
//! rank comes to.
//!
//! ```text
//! let deleter: Deleter<FirstWord, _> = Deleter::keep(|payload: &[u64; 16]| payload[0]);
//! let found = audit(alloc, &heap, &deleter, &rank)?;
//! if found.cyclic > 0 {
//!     show(&found.walk);
//! }
//! ```
#![tactic(auto)]

mod audits;
mod fields;
mod finding;
mod laws;
mod marks;
mod obeying;
mod ranks;
mod reach;
mod search;
mod summing;
mod trails;
mod walks;
mod word;

pub use audits::audit;
pub use deleter::Deleter;
pub use finding::Audit;
pub use laws::{found_is_walk, one_walk_is_found};
pub use obeying::lawful;
pub use walks::check_walk;
