//! Calls on the counter words of slots: a seat of a running domain copies, drops, weakens and upgrades handles of
//! counted references, and reads how many references there are.
//!
//! Each call makes the events of its row and no others: a copy is one add; a drop is one, and where it took the count
//! to 0 the finish that follows, and the taking of the help flag that follows that. Its clause says which events, in
//! which order and with which answers, and what the seat has afterwards. A handle gives no right by itself: a call asks
//! that the seat's list has its slot, and that the seat is in no call, and it leaves the seat so. `Spent` is known
//! without a step. No call takes memory, and each returns.
//!
//! It doesn't promise that an object lives on after the step that found it alive, but where the seat owns a strong
//! reference to it; nor when an object that has ended is destroyed.
//!
//! ```text
//! let more = copy_strong(&domain, &mut seat, &handle)?;      // one add, or Spent
//! let weak = weaken(&domain, &mut seat, &more)?;
//! drop_strong(&domain, &mut seat, more);                     // at most three steps
//! upgrade(&domain, &mut seat, &weak, Still);                 // a strong handle, or Ended, or Spent
//! ```
#![tactic(auto)]

mod counting;
mod opened;
mod strong_handles;
mod upgrading;
mod weak_handles;

pub use acquire_retire::{
    AnyStep, Deed, Domain, EventPlace, Kind, NoLaw, OpenError, OutOfMemory, Outcome, Payment,
    Protocol, Quota, Seat, Shape, ShapeField, Still, Work, empty_image, has_bit, held_as, kind_of,
    open_domain, open_granted,
};
pub use counted_handles::{
    Heap, LoadError, PayloadKind, Place, RecordKind, SlotId, SlotImage, Spent, Strong, Weak,
    WeakPlace, record_of,
};
pub use counting::{strong_count, weak_count};
pub use opened::opened_seats_are_at_rest;
pub use strong_handles::{copy_strong, drop_strong};
pub use upgrading::{UpgradeError, upgrade};
pub use weak_handles::{copy_weak, drop_weak, weaken};
