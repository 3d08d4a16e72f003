//! A snapshot in hand.
ghost use Rattle.std.specs.Prelude.{◌≡◌, ◌↔◌, IfSome, IsTrue, None};
ghost use Rattle.snapshot_ptr.specs.Handles.{slot_under};

use protected_loads::SlotId;
use std::marker::Model;

/// A snapshot. A call that takes it asks that the seat is under it.
#[derive(Debug, Drop)]
pub struct Snapshot {
    slot: SlotId,
    /// The announcement word that protects the slot, or none where the snapshot is counted.
    word: Option<u32>,
}

impl Model for Snapshot {
    ghost use Rattle.snapshot_ptr.specs.Handles.{Snap};

    ghost Value = { Snap };

    ghost view = { λ s. record { slot = s.slot; word = s.word } };
}

impl Snapshot {
    /// The slot that it names.
    pub fn slot(&self) -> SlotId
        ensures { result ≡ self.now.slot }
    {
        self.slot
    }

    /// The announcement word that protects its slot; none where it is counted.
    pub fn word(&self) -> Option<u32>
        ensures { result ≡ self.now.word }
    {
        self.word
    }
}

/// Whether the snapshot is counted: it holds a strong reference, since all three words were in use as it was taken.
pub fn counted(snapshot: &Snapshot) -> bool
    ensures { IsTrue result ↔ (snapshot.now.word ≡ None) }
{
    snapshot.word.is_none()
}

/// The snapshot of the slot that was found, if any, which this word protects.
pub(crate) fn held_by(word: Option<u32>, found: Option<SlotId>) -> Option<Snapshot>
    ensures slot { slot_under result ≡ found }
    ensures word { IfSome result (λ snapshot. snapshot.word ≡ word) }
{
    match found {
        None => None,
        Some(slot) => Some(Snapshot { slot, word }),
    }
}
