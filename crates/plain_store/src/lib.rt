//! What a plain heap keeps: the lists of its one seat, its places, its slots, and beside each slot the sums of the
//! references to it, so that no call adds up a list.
//!
//! The rule is `Kept`: the state that the store stands for is sound, and the sums are those of the definition. Each
//! call asks for it and leaves it, and says which plain steps it makes; a refusal leaves that state as it was. The
//! handles and places of a plain heap stand here too. `cdrc_plain` makes the rule an invariant of its heap: use that.
//!
//! It doesn't promise that `OutOfMemory` comes only where a growth was refused, nor which slot a make takes.
//!
//! ```text
//! let mut store = Store::new(alloc, 8, 1, 0)?;
//! let hand = store.make(&record_of(b"word"))?;
//! store.drop_owned(hand.slot());
//! ```
#![tactic(auto)]

mod entries;
mod hand;
mod laws;
mod place;
mod refusal;
mod store;
mod store_gains;
mod store_hands;
mod store_image;
mod store_loads;
mod store_places;
mod store_settle;
mod store_snapshots;
mod tally;

pub use entries::is_of;
pub use hand::{Hand, SnapHand, WeakHand, counted};
pub use laws::settling_ejects_as_announced;
pub use out_of_memory::{Back, OutOfMemory};
pub use place::{PlainPlace, PlainWeakPlace};
pub use plain_state::{
    EventPlace, Kind, MOST_CELLS, MOST_SLOTS, MOST_WEAK_CELLS, PayloadKind, SlotId, SlotImage, ZERO,
};
pub use refusal::{Full, MakeRefused};
pub use store::Store;
pub use store_image::words;
