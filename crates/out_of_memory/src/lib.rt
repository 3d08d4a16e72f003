//! The answers that a call gives where there was no memory, shared by every crate above.
//!
//! `OutOfMemory` says so and no more. `Back` says so and returns what the call was given, so that nothing
//! is lost with a refusal. Neither promises that an allocation was really refused: no contract can see that.
//!
//! ```text
//! fn copied(alloc: Global, word: &[u8]) -> Result<Vec<u8>, OutOfMemory> {
//!     Ok(word.to_vec(alloc)?)
//! }
//! ```
#![tactic(auto)]

use std::alloc::{AllocError, AllocFailed};

/// There was no memory.
#[derive(Clone, Copy, PartialEq, Eq, Debug, Drop)]
pub struct OutOfMemory;

impl From<AllocError> for OutOfMemory {
    fn from(_error: AllocError) -> OutOfMemory {
        OutOfMemory
    }
}

impl<T: Drop> From<AllocFailed<T>> for OutOfMemory {
    fn from(_error: AllocFailed<T>) -> OutOfMemory {
        OutOfMemory
    }
}

/// There was no memory, and `back` is what the call was given.
#[derive(Clone, Copy, PartialEq, Eq, Debug, Drop)]
pub struct Back<T> {
    pub back: T,
}
