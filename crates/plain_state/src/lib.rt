//! The plain meaning of counted objects that seats share: lists of references, the places that hold them, how far each
//! slot is in its life, and the steps that seats make. It has no counts, no announcement words, no scans; words stand
//! in images alone.
//!
//! The rule is `Lawful`: what is referred to is alive, what is under a snapshot is covered by a place or a deferred
//! entry, each ended object waits in one dying list, and what is neither alive nor ended has no fields.
//! `steps_keep_sound` says that every step of every seat keeps it, over any number of seats. Heaps that run, and the
//! core whose steps are atomic, are told in these words.
//!
//! It doesn't promise which steps come, nor that any does.
//!
//! ```text
//! let payload = record_of(b"word");          // a text as the payload of an object
//! let place = EventPlace::Field(SlotId(3), 0);
//! ```
#![tactic(auto)]

mod act;
mod announced;
mod ejection;
mod image;
mod laws;
mod limits;
mod payload;
mod record;
mod slot;

pub use act::{EventPlace, PlainAct};
pub use announced::Announced;
pub use counter_word::{HELP, ZERO, has_help, value};
pub use ejection::laws_of_ejection;
pub use image::{Heap, SlotImage};
pub use laws::steps_keep_sound;
pub use limits::{
    MOST_BATCH, MOST_CELLS, MOST_SEATS, MOST_SLOTS, MOST_WEAK_CELLS, WORDS_OF_SEAT, WORDS_OF_SLOT,
};
pub use payload::PayloadKind;
pub use record::{RecordKind, laws_of_records, record_of};
pub use slot::{Kind, PlainSlot, SlotId, Stage};
