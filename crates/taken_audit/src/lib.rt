//! The audit of a heap by the words of the slots that aren't free.
//!
//! A slot that is free has null fields, and nothing refers to it, so an audit needn't read it. `audit_taken` gets the
//! numbers of the slots that aren't free, in ascending order, and their words. It writes these over so that they name
//! slots by their places in that list, has `heap_audit` audit them as a heap of their own, and takes the walk that is
//! found back to the slots' numbers. What it answers is the audit of the whole state: of its Live slots, of what is
//! deferred, of unreached slots and of a cycle of these.
//!
//! It asks for a settled heap of one seat. The words that it was given aren't those of the heap afterwards.
//!
//! ```text
//! let found = audit_taken(alloc, &taken, &mut words, &deleter, &rank)?;     // a rank for each slot of `taken`
//! ```
#![tactic(auto)]

mod auditing;
mod placing;

pub use auditing::audit_taken;
pub use plain_audit::Audit;
