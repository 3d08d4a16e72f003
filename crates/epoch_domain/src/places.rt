//! Where the words are that a seat's calls work on: those of a slot by one multiplication and one addition.
//!
//! A call whose proof rests on the ranges of a domain's sizes reads `_sizes`: a proof knows what a value keeps once the
//! body reads a part of it.
ghost use Rattle.std.specs.Prelude.{◌≡◌, ◌<◌, ◌^◌};
ghost use Rattle.epoch_rule.specs.epoch_core.Words.{field_at, payload_at, place_at, region_at, slot_at};

use crate::domain::EpochDomain;
use epoch_parts::{EventPlace, SlotId};
use epoch_rule::Protocol;

/// How many words each slot has: its count, two fields, the payload.
const WORDS_OF_SLOT: usize = 19;

/// The word of the epoch.
pub(crate) const EPOCH: usize = 1;

/// The region word of a seat. Region words stand eight apart, so that no two of them share a cache line.
pub(crate) fn region_word(seat: u32) -> usize
    ensures { result ≡ region_at seat }
{
    8 + 8 * seat as usize
}

impl<P: Protocol> EpochDomain<P> {
    /// The first word of a slot, its count.
    pub(crate) fn slot_word(&self, slot: SlotId) -> usize
        ensures at { result ≡ slot_at self.now.shape slot.0 }
        ensures fits { result < 2 ^ 38 }
    {
        self.first_slot + WORDS_OF_SLOT * slot.0 as usize
    }

    /// A word of a slot's payload.
    pub(crate) fn payload_word(&self, slot: SlotId, at: u32) -> usize
        ensures { result ≡ payload_at self.now.shape slot at }
    {
        self.slot_word(slot) + 3 + at as usize
    }

    /// A field of a slot.
    pub(crate) fn field_word(&self, slot: SlotId, field: u32) -> usize
        ensures { result ≡ field_at self.now.shape slot field }
    {
        self.slot_word(slot) + 1 + field as usize
    }

    /// The word of a place. There are no weak places, and the answer is 0.
    pub(crate) fn place_word(&self, place: EventPlace) -> usize
        ensures { result ≡ place_at self.now.shape place }
    {
        match place {
            EventPlace::Cell(cell) => 8 + 8 * self.shape.seats as usize + cell as usize,
            EventPlace::Field(slot, field) => self.field_word(slot, field),
            EventPlace::WeakCell(_) => 0,
            EventPlace::WeakField(_) => 0,
        }
    }
}
