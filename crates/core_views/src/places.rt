//! Where the words are that a seat's phase, its notes and its owed entries are about.
ghost use Rattle.std.specs.Prelude.{◌≡◌};
ghost use Rattle.core_functions.specs.core_events.Words.{strong_at};
ghost use Rattle.core_functions.specs.core_events.Views.{note_of, of_slot, slot_noted, slot_of};
ghost use Rattle.core_functions.specs.core_events.Steps.{owed_at};
ghost use Rattle.core_views.specs.Places.{word_in};

use crate::holdings::Holdings;
use core_functions::{
    Act, Kind, Shape, bits_index, counter_index, note_of, payload_index, slot_in_note,
    slot_in_phase, slot_index,
};

impl Holdings {
    /// The word of the slot of the seat's phase that the act is on. Where the phase has no slot, it is on none, and the
    /// answer is 0.
    pub(crate) fn phase_index(&self, shape: &Shape, act: &Act) -> usize
        ensures { result ≡ of_slot (word_in shape.now act.now) (slot_of self.now.phase) }
    {
        let Some(slot) = slot_in_phase(self.phase) else {
            return 0;
        };
        match *act {
            Act::Arm => counter_index(shape, Kind::Weak, slot),
            Act::Fill(at, _) => payload_index(shape, slot, at),
            Act::Free => bits_index(shape, slot),
            _ => slot_index(shape, slot),
        }
    }

    /// The strong word of the slot that an announcement word of the seat names, or 0 where it names none.
    pub(crate) fn noted_index(&self, shape: &Shape, at: u32) -> usize
        ensures { result ≡ of_slot (strong_at shape.now) (slot_noted (note_of self.now at)) }
    {
        match slot_in_note(note_of(&self.notes, at)) {
            Some(slot) => slot_index(shape, slot),
            None => 0,
        }
    }

    /// The counter word of the first entry that is owed.
    pub(crate) fn owed_index(&self, shape: &Shape) -> usize
        ensures { result ≡ owed_at shape.now self.now.owed }
    {
        match self.owed.front() {
            Some(entry) => counter_index(shape, entry.0, entry.1),
            None => 0,
        }
    }
}
