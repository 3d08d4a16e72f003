//! The parts of a seat's half of the table of events, as functions over plain values: what a word says, where a word
//! is, the slot of a phase, the first copy in a list, the split of what is retired, and what gets ripe. Beside them,
//! what a core and a running domain begin with: the test of their sizes, and the first words.
//!
//! Each answers what the definition of that name in `core_events` says, and the test what `specs/Fields` says;
//! `core_views` makes of the others what a seat does. Nothing is promised of a word that its callers don't ask for.
//!
//! ```text
//! let place = place_index(&shape, EventPlace::Cell(0));
//! let parts = split(alloc, &retired, &seen)?;          // kept and ejected
//! ```
#![tactic(auto)]

mod beginning;
mod fields;
mod grants;
mod laws;
mod lists;
mod notes;
mod phases;
mod places;
mod splitting;
mod words;

pub use beginning::first_words;
pub use core_events::{
    Act, Announced, EventPlace, Kind, Move, Note, Outcome, Phase, Quota, Shape, SlotId, ZERO,
    has_help, value,
};
pub use eject_scan::Seen;
pub use fields::first_bad;
pub use grants::grant_more;
pub use laws::one_first_bad;
pub use lists::{are_idle, has_slot, has_snapshot, move_all, retire, take_first};
pub use notes::{is_valid, note_of, slot_in_note, validated};
pub use phases::{
    given_up, is_arming, is_filling, is_finishing, is_giving, is_helping, is_marking, slot_in_phase,
};
pub use places::{
    announcement_words, bits_index, counter_index, is_content, kind_of, note_index, payload_index,
    place_index, room_for, slot_index, ticket_index,
};
pub use retire_batch::{Batch, OutOfMemory};
pub use splitting::{Parts, announced_by, ripen, ripened, split};
pub use words::{bit_alone, found_in, has_bit, held_as};
