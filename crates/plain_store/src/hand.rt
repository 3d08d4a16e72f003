//! The handles of a plain heap: plain values, which give no right of their own.
ghost use Rattle.std.specs.Prelude.{◌≡◌, Bool};
ghost use Rattle.plain_state.specs.declared.slot.SlotId.{SlotId};

use plain_state::SlotId;
use std::marker::Model;

/// A strong reference. A call that takes it asks that the heap's list of owned references has its slot.
#[derive(Debug, Drop)]
pub struct Hand {
    slot: SlotId,
}

impl Model for Hand {
    ghost Value = { SlotId };

    ghost view = { λ h. h.slot };
}

impl Hand {
    /// A handle of this slot, made anew.
    pub fn of(slot: SlotId) -> Hand
        ensures { result ≡ slot }
    {
        Hand { slot }
    }

    pub fn slot(&self) -> SlotId
        ensures { result ≡ self.now }
    {
        self.slot
    }
}

/// A weak reference: it keeps the slot from being given again, and not the object alive.
#[derive(Debug, Drop)]
pub struct WeakHand {
    slot: SlotId,
}

impl Model for WeakHand {
    ghost Value = { SlotId };

    ghost view = { λ h. h.slot };
}

impl WeakHand {
    /// A handle of this slot, made anew.
    pub fn of(slot: SlotId) -> WeakHand
        ensures { result ≡ slot }
    {
        WeakHand { slot }
    }

    pub fn slot(&self) -> SlotId
        ensures { result ≡ self.now }
    {
        self.slot
    }
}

/// A snapshot of a strong place. An uncounted one keeps its object by an announcement, a counted
/// one by a reference.
#[derive(Debug, Drop)]
pub struct SnapHand {
    slot: SlotId,
    counted: bool,
}

impl Model for SnapHand {
    ghost Value = { SlotId × Bool };

    ghost view = { λ h. (h.slot, h.counted) };
}

impl SnapHand {
    /// A handle of a snapshot of this slot, counted or not, made anew.
    pub fn of(slot: SlotId, counted: bool) -> SnapHand
        ensures { result ≡ (slot, counted) }
    {
        SnapHand { slot, counted }
    }

    pub fn slot(&self) -> SlotId
        ensures { result ≡ self.now.0 }
    {
        self.slot
    }
}

/// Whether the snapshot holds a reference.
pub fn counted(s: &SnapHand) -> bool
    ensures { result ≡ s.now.1 }
{
    s.counted
}
