//! All words of an object's payload in one call.
//!
//! A seat that holds an object, by a reference or under a snapshot, reads its sixteen payload words one after another.
//! The rule that it keeps: they are those that the object was made with, whatever other seats do meanwhile, since
//! nobody writes a payload while the object is there. So numbers that agreed when the object was made agree for its
//! readers.
//!
//! Nothing is promised of an object that the seat doesn't hold, nor that the payload fits its kind where the seat has
//! none but weak references: the object may be destroyed then.
//!
//! ```text
//! let Some(seen) = try_snapshot(&domain, &mut seat, Place::Cell(0), AnyStep)? else { .. };
//! let payload = read_all(&domain, &mut seat, seen.slot());       // payload[0] to payload[15], all of one object
//! end(&domain, &mut seat, seen);
//! ```
#![tactic(auto)]

mod reading;

pub use reading::read_all;
pub use slot_store::{Domain, Seat, SlotId};
