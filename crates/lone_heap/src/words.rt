//! Which slots the announcement words of a seat protect.
ghost use Rattle.std.specs.Prelude.{◌≡◌, ◌↔◌, IsTrue, Some};
ghost use Rattle.protected_loads.specs.plain_state.Limits.{words_of_seat};

use protected_loads::SlotId;

/// What each of a seat's announcement words 1 to 3 protects: the slot of a strong snapshot, or nothing.
#[derive(Clone, Copy, Debug, Drop)]
pub struct Words {
    first: Option<SlotId>,
    second: Option<SlotId>,
    third: Option<SlotId>,
}

/// Whether a word that protects this protects the slot.
fn protects(word: Option<SlotId>, slot: SlotId) -> bool
    ensures { IsTrue result ↔ (word ≡ Some slot) }
{
    match word {
        Some(held) => held.0 == slot.0,
        None => false,
    }
}

impl Words {
    ghost use Rattle.std.specs.Prelude.{◌≡◌, ◌<◌, slice_index_or, slice_set};
    ghost use Rattle.protected_loads.specs.plain_state.declared.slot.Kind.TheVariants.{Strong};
    ghost use Rattle.protected_loads.specs.plain_state.Lists.{entry_times};
    ghost use Rattle.protected_loads.specs.core_events.declared.view.Note.TheVariants as note;
    ghost use Rattle.protected_loads.specs.core_events.Views.{no_notes, valid_of};
    ghost use Rattle.lone_heap.specs.Words.{note_for, notes_for};

    /// Words that protect nothing.
    pub fn new() -> Words
        ensures { notes_for result ≡ no_notes }
    {
        Words {
            first: None,
            second: None,
            third: None,
        }
    }

    /// The word protects this slot from now on, or nothing.
    pub(crate) fn set(&mut self, word: u32, slot: Option<SlotId>)
        requires some { 0 < word }
        requires few { word < words_of_seat }
        ensures { notes_for self.new ≡ slice_set (notes_for self.old) word (note_for slot) }
    {
        match word {
            1 => self.first = slot,
            2 => self.second = slot,
            _ => self.third = slot,
        }
    }

    /// The least word that protects this slot.
    pub(crate) fn word_of(&self, slot: SlotId) -> u32
        requires { 0 < entry_times Strong slot (valid_of (notes_for self.now)) }
        ensures some { 0 < result }
        ensures few { result < words_of_seat }
        ensures noted { slice_index_or (notes_for self.now) result note.Idle
            ≡ note.Valid Strong slot }
    {
        if protects(self.first, slot) {
            1
        } else if protects(self.second, slot) {
            2
        } else {
            3
        }
    }
}
