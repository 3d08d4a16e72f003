//! How a heap of one seat settles, and takes a snapshot, whatever the order of its lists.
//!
//! Of equal entries that wait to be given up only so many are kept as are announced. A plain heap lets later ones go;
//! on a domain a scan may move entries, and which of equal ones it keeps can't be told. So what both do is said here by
//! counts: an entry goes only while more of its kind wait than are announced. What nothing refers to ends, is cleared,
//! destroyed, and given again.
//!
//! A snapshot is one more in the seat's list, wherever it stands there.
//!
//! It isn't promised that there is nothing more to do: that is `IsSettled` of `plain_store`. Nothing here runs.
//!
//! ```text
//! plain_heaps_settle_so();      // each settle of a plain heap is such a tidying
//! ```
#![tactic(auto)]

mod laws;

pub use laws::{plain_heaps_settle_so, plain_heaps_take_so, settling_goes_on};
pub use plain_store::{
    EventPlace, Hand, Kind, MOST_CELLS, MOST_SLOTS, MOST_WEAK_CELLS, MakeRefused, PayloadKind,
    PlainPlace, PlainWeakPlace, SlotId, SlotImage, SnapHand, WeakHand, ZERO, counted,
};
