//! The audit of a plain heap: what of it lives, what waits, and what only cycles of strong references keep.
//!
//! The rules, which `specs/` has as definitions over the plain state: a slot is *reached* where a slot that a seat
//! owns, that a strong cell holds or that stands in a deferred strong entry leads to it along strong fields of Live
//! slots, in any number of steps, none among them. A Live slot that isn't reached is *unreached*. `audit_heap` counts
//! the Live slots, the deferred entries and the unreached slots, adds up the weights of the Live ones, and finds a walk
//! round a cycle of unreached slots, if there are any.
//!
//! It asks for a heap that has settled: before, an object without references may still be Live. Nothing is promised of
//! cycles but the one that the search from the unreached slot of least rank comes to.
//!
//! ```text
//! let weigh: Deleter<RecordKind, _> = Deleter::keep(|payload: &[u64; 16]| payload[0]);
//! heap.settle()?;
//! let found = audit_heap(alloc, &heap, &weigh, &rank)?;
//! ```
#![tactic(auto)]

mod audits;
mod laws;

pub use audits::audit_heap;
pub use cdrc_plain::{Heap, NoLaw, PlainHeap};
pub use heap_audit::{Audit, Deleter, audit, check_walk, lawful};
pub use laws::{one_audit_is_found, only_fields_make_cycles};
