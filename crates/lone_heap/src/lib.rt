//! The calls of a seat that is alone in its domain, as steps of a plain heap of one seat.
//!
//! A seat that is alone knows the whole state of its domain, and nobody else changes it. So what a call does can be
//! said as of a heap for one thread: by the plain state before and after it. The rule: each call makes the plain steps
//! of its row, and what else it does is to tidy, as `plain_settling` says. After a settle nothing is left to tidy.
//!
//! It isn't promised which slot is made, nor which of equal entries goes first. While another seat is there, nothing is
//! promised at all.
//!
//! ```text
//! let (domain, mut seat, words) = open::<FirstWord>(alloc, 4, 1, 0)?;
//! let one = make(&domain, &mut seat, &payload)?;
//! let two = copy(&domain, &mut seat, &one)?;        // one owned reference more
//! counts(&domain, &mut seat, one.slot());           // (2, 1)
//! give(&domain, &mut seat, one);                    // one fewer
//! put(&domain, &mut seat, EventPlace::Cell(0), Some(two.slot()));
//! let seen = snap(&domain, &mut seat, &mut words, EventPlace::Cell(0))?;   // Some of the slot, and not counted
//! settle_all(&domain, &mut seat, &deleter);         // nothing more may go
//! ```
#![tactic(auto)]

mod auditing;
mod loading;
mod making;
mod opening;
mod places;
mod references;
mod settling;
mod snapshots;
mod telling;
mod words;

pub use auditing::audit_lone;
pub use loading::load;
pub use making::make;
pub use opening::open;
pub use places::{put, try_put};
pub use protected_loads::{Domain, Seat, UpgradeError, Weak};
pub use references::{copy, copy_weakly, give, give_weak, upgrade_lone, weaken_lone};
pub use settling::settle_all;
pub use slot_store::{MakeError, PairKind};
pub use snapshot_ptr::Strong;
pub use snapshots::{end, keep, snap};
pub use telling::{counts, read};
pub use words::Words;
