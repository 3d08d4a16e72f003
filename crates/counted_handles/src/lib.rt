//! Handles of counted references: what a caller keeps in hand while a seat of a domain owns the reference.
//!
//! A handle is a plain value that names a slot. It gives no right by itself: whoever likes may make one by `of`, and a
//! call that takes a handle asks that its seat's list has that slot. A call that takes it by value takes one entry of
//! that list away; so handles are moved, and can't be copied. A handle that is lost without its call leaves its entry
//! in the list, and what it refers to stays.
//!
//! The places from which references are loaded, and the two refusals that calls on handles share, stand here too.
//! Nothing here counts, and nothing runs.
//!
//! ```text
//! let handle = Strong::of(SlotId(3));      // a value; whether a seat owns the reference is in the seat's list
//! handle.slot();                           // SlotId(3)
//! ```
#![tactic(auto)]

mod handle;
mod place;
mod refusal;

pub use handle::{Strong, Weak};
pub use place::{Place, WeakPlace};
pub use plain_state::{Heap, PayloadKind, RecordKind, SlotId, SlotImage, record_of};
pub use refusal::{LoadError, Spent};
