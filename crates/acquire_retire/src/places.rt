//! Where the words are that a seat's calls work on: those of a slot by one multiplication and one addition.
//!
//! A call whose proof rests on the ranges of a domain's sizes reads `_sizes`: a proof knows what a value keeps once the
//! body reads a part of it.
ghost use Rattle.std.specs.Prelude.{◌≡◌, ◌<◌, ◌^◌};
ghost use Rattle.core_promises.specs.core_events.Steps.{counter_at};
ghost use Rattle.core_promises.specs.core_events.Words.{bits_at, payload_at, place_at, slot_at};

use crate::domain::Domain;
use core_promises::{EventPlace, Kind, SlotId};
use domain_rule::Protocol;
use plain_state::{WORDS_OF_SEAT, WORDS_OF_SLOT};

impl<P: Protocol> Domain<P> {
    /// The first word of a slot, its strong one.
    pub(crate) fn slot_word(&self, slot: SlotId) -> usize
        ensures at { result ≡ slot_at self.now.shape slot.0 }
        ensures fits { result < 2 ^ 38 }
    {
        self.first_slot + WORDS_OF_SLOT * slot.0 as usize
    }

    /// A word of a slot's payload.
    pub(crate) fn payload_word(&self, slot: SlotId, at: u32) -> usize
        ensures { result ≡ payload_at self.now.shape slot at }
    {
        self.slot_word(slot) + 5 + at as usize
    }

    /// The counter word of a reference. None is of the kind `Disposal`, and the answer is 0.
    pub(crate) fn counter_word(&self, kind: Kind, slot: SlotId) -> usize
        ensures { result ≡ counter_at self.now.shape kind slot }
    {
        match kind {
            Kind::Strong => self.slot_word(slot),
            Kind::Weak => self.slot_word(slot) + 1,
            Kind::Disposal => 0,
        }
    }

    /// The word that has the bit of a slot.
    pub(crate) fn bits_word(&self, slot: SlotId) -> usize
        ensures { result ≡ bits_at self.now.shape slot }
    {
        self.slot_word(SlotId(self.shape.slots)) + slot.0 as usize / 64
    }

    /// The word of a place.
    pub(crate) fn place_word(&self, place: EventPlace) -> usize
        ensures { result ≡ place_at self.now.shape place }
    {
        match place {
            EventPlace::Cell(cell) => 1
                + WORDS_OF_SEAT as usize * self.shape.seats as usize
                + cell as usize,
            EventPlace::Field(slot, field) => self.slot_word(slot) + 2 + field as usize,
            EventPlace::WeakCell(cell) => {
                1 + WORDS_OF_SEAT as usize * self.shape.seats as usize
                    + self.shape.cells as usize
                    + cell as usize
            }
            EventPlace::WeakField(slot) => self.slot_word(slot) + 4,
        }
    }
}
