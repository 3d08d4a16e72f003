//! Calls that retire: a seat of a running domain changes what a place holds, and scans where that is due.
//!
//! An exchange puts null, or a reference that the seat gives, into a place. What the place held is retired and never
//! given up at once: another seat may have read the place, and be about to count a reference. Once so many entries are
//! retired as there are announcement words, and a batch, the seat collects before the call returns; fewer than that are
//! retired afterwards, so that the next call finds room again. A compare and exchange that finds something else than
//! what was expected changes nothing, and scans nothing.
//!
//! The calls are for places of either kind, and for the fields of a slot that the seat is to destroy. A seat is in no
//! call before, and in none afterwards. No call takes memory, and each returns.
//!
//! It isn't promised which retired entry is given up, nor when.
//!
//! ```text
//! let held = exchange(&domain, &mut seat, place, Some(slot), deed);        // what it held is retired
//! compare_exchange(&domain, &mut seat, place, expected, None, deed)?;      // or Err with what it holds
//! scan_where_due(&domain, &mut seat);                                      // nothing, after either of them
//! ```
#![tactic(auto)]

mod exchanging;
mod leaving;
mod scanning;

pub use control_word::{Domain, EventPlace, Outcome, Seat, SlotId, Strong, has_bit, held_as};
pub use exchanging::{compare_exchange, exchange};
pub use leaving::leave;
pub use scanning::{collect, scan_where_due};
