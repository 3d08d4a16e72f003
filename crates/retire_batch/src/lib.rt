//! A seat's deferred decrements: what it has retired, and what a scan has ejected for it to pay.
//!
//! A reference that leaves a place is retired: one deferred decrement of its kind and slot. A scan reads all
//! announcements, as a multiset, and splits the retired entries by it: of as many equal entries as there are, as
//! many stay as are announced, and the others are ejected, which the seat then owes (acquire, retire and eject of
//! Anderson, Blelloch and Wei, PLDI 2021; the multiset form is this library's). So an announcement holds back one
//! decrement, and a slot that was retired twice under one announcement gives up one of its two references.
//!
//! The memory is taken once, in `with_room`; no other call takes any. Nothing here speaks of threads: that the
//! announcements were read in time is the rule of the layers above.
//!
//! ```text
//! let mut batch = Batch::with_room(alloc, 8)?;
//! batch.push(Kind::Strong, SlotId(0));
//! batch.push(Kind::Strong, SlotId(0));
//! batch.split(&seen);                      // slot 0 is announced once
//! batch.next_owed();                       // Some((Kind::Strong, SlotId(0))), and one entry is left
//! ```
#![tactic(auto)]

mod batch;
mod split;

pub use batch::Batch;
pub use out_of_memory::OutOfMemory;
pub use split::split_entries;
