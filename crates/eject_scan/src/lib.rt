//! What a scan has read: the announcement words of all seats, as a multiset of kinds and slots.
//!
//! A scan reads every announcement word in order and notes each. `Seen` then tells how often a slot was announced
//! under a kind, which is what the split of a batch asks (eject, of Anderson, Blelloch and Wei, PLDI 2021). It keeps a
//! row for each word that was read, in ascending order, with how often it was read; words of 0 announce nothing and
//! take no row. So a question costs a search by halves among the slots that are announced.
//!
//! The memory is taken once, in `with_room`. Nothing here says when the words were read: that is the rule of the
//! layers above.
//!
//! ```text
//! let mut seen = Seen::with_room(alloc, 8)?;
//! seen.note(encode(1, 2));
//! seen.note(0);
//! seen.times(Kind::Weak, SlotId(2));       // 1
//! ```
#![tactic(auto)]

mod laws;
mod seen;

pub use laws::laws_of_announcements;
pub use seen::{Row, Seen};
