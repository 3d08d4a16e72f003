//! What a note stands for, and what a word that is found makes of it.
ghost use Rattle.std.specs.Prelude.{◌≡◌, slice_index_or};
ghost use Rattle.core_events.specs.declared.view.Note.TheVariants.{Idle};
ghost use Rattle.core_events.specs.Views.{slot_noted};
ghost use Rattle.core_events.specs.Steps.{is_valid, validated};

use crate::words::held_as;
use core_events::{Note, SlotId};

/// The note of an announcement word, and where there is no such word, one that stands for nothing.
pub fn note_of(notes: &[Note], at: u32) -> Note
    ensures { result ≡ slice_index_or notes.now at Idle }
{
    match notes.get(at as usize) {
        Some(note) => *note,
        None => Note::Idle,
    }
}

/// The slot of a note that names one.
pub fn slot_in_note(note: Note) -> Option<SlotId>
    ensures { result ≡ slot_noted note }
{
    match note {
        Note::Idle => None,
        Note::Announced(_, slot) | Note::Valid(_, slot) => Some(slot),
    }
}

/// Whether a place with this word holds the slot that the note announces.
pub fn is_valid(word: u64, note: Note) -> bool
    ensures { result ≡ is_valid word note }
{
    match note {
        Note::Announced(_, slot) => word == held_as(Some(slot)),
        Note::Idle | Note::Valid(_, _) => false,
    }
}

/// What was announced is under a snapshot now.
pub fn validated(note: Note) -> Note
    ensures { result ≡ validated note }
{
    match note {
        Note::Announced(kind, slot) => Note::Valid(kind, slot),
        Note::Idle | Note::Valid(_, _) => note,
    }
}
