//! Announcement words: how one word of 64 bits names a kind and a slot, and which words of a seat are in use.
//!
//! A seat protects what it has read from a place by an announcement: it writes the slot into one of its four
//! announcement words and then reads the place again (announce, then validate, as hazard pointers do: Michael,
//! 2004). Word 0 serves loads, and words 1 to 3 serve snapshots. `encode` and `decode` are each other's inverse,
//! and `Notes` gives out the least free snapshot word.
//!
//! Nothing here reads or writes memory that is shared: that an announcement protects is the rule of the layers
//! above.
//!
//! ```text
//! let word = encode(1, 2);                 // 13: the weak kind, slot 2
//! let mut notes = Notes::new();
//! let first = notes.take();                // Some(1)
//! ```
#![tactic(auto)]

mod notes;
mod words;

pub use notes::Notes;
pub use plain_state::{
    Announced, EventPlace, HELP, Kind, MOST_BATCH, MOST_CELLS, MOST_SEATS, MOST_SLOTS,
    MOST_WEAK_CELLS, SlotId, WORDS_OF_SEAT, WORDS_OF_SLOT, ZERO, has_help, value,
};
pub use words::{announced_as, decode, encode};
