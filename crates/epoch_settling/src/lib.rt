//! How a domain under epochs comes to rest: a seat flushes until nothing waits, and what one flush pays where the seat
//! is alone.
//!
//! The rule that is kept is that of the domain. A seat that is alone and in no region makes the epoch one later by each
//! flush, so two flushes pay all that was pending before the first (`alone_flushes_pay`). What a destroyed object
//! referred to is pending afterwards, so a chain of objects takes two flushes for each of them; `settle_epochs` flushes
//! until nothing is left.
//!
//! It isn't promised that `settle_epochs` returns: a region that another seat keeps open holds back what is pending,
//! and past epoch 2^62 nothing is due.
//!
//! ```text
//! // Nothing is pending then, and nothing is to be destroyed.
//! let weight = settle_epochs(rt, alloc, &domain, &mut root, &deleter)?;
//! ```
#![tactic(auto)]

mod laws;
mod settling;

pub use epoch_refs::{EpochDomain, EpochSeat, EpochWork, OutOfMemory, Protocol, flush, waiting};
pub use laws::alone_flushes_pay;
pub use settling::settle_epochs;
