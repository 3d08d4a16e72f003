//! The slots that one seat has ended and not yet destroyed: those that wait to become ripe, and those that are ripe.
//!
//! A slot that the seat ended waits until a whole scan finds no announcement of it for disposal; then it is ripe, and
//! the seat may destroy it (weak snapshots of Anderson, Blelloch and Wei, PLDI 2022). A scan goes over those that wait
//! and never over the ripe ones, so a slot is looked at once more for each scan that found it announced, and once.
//! To end a slot, and to take the first ripe one, take a number of steps that doesn't grow with the lists.
//!
//! The memory is taken once, in `with_room`; no other call takes any. Nothing here speaks of threads: that the
//! announcements were read in time is the rule of the layers above.
//!
//! ```text
//! let mut dying = Dying::with_room(alloc, 8)?;
//! dying.end(SlotId(3));
//! dying.ripen(&seen);                      // nothing announces slot 3 for disposal
//! dying.first_ripe();                      // Some(SlotId(3))
//! dying.take(SlotId(3));
//! ```
#![tactic(auto)]

mod dying;

pub use core_functions::{
    Batch, OutOfMemory, Seen, bit_alone, first_bad, first_words, found_in, given_up, has_bit,
    has_slot, held_as, kind_of, note_index, place_index, slot_index, ticket_index,
};
pub use dying::Dying;
