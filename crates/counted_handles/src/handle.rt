//! Handles of the references that a seat owns.
ghost use Rattle.std.specs.Prelude.{◌≡◌};

use plain_state::SlotId;
use std::marker::Model;

/// A strong reference. A call that takes it asks that the seat's list of owned references has its slot.
#[derive(Debug, Drop)]
pub struct Strong {
    slot: SlotId,
}

impl Model for Strong {
    ghost use Rattle.counted_handles.specs.Handles.{Handle};

    ghost Value = { Handle };

    ghost view = { λ h. record { slot = h.slot } };
}

impl Strong {
    /// A handle of this slot. It gives no right: what counts is the seat's list.
    pub fn of(slot: SlotId) -> Strong
        ensures { result.slot ≡ slot }
    {
        Strong { slot }
    }

    /// The slot that it names.
    pub fn slot(&self) -> SlotId
        ensures { result ≡ self.now.slot }
    {
        self.slot
    }
}

/// A weak reference: it keeps the slot from being given again, and not the object alive. A call that takes it asks
/// that the seat's list of weak references has its slot.
#[derive(Debug, Drop)]
pub struct Weak {
    slot: SlotId,
}

impl Model for Weak {
    ghost use Rattle.counted_handles.specs.Handles.{Handle};

    ghost Value = { Handle };

    ghost view = { λ h. record { slot = h.slot } };
}

impl Weak {
    /// A handle of this slot. It gives no right: what counts is the seat's list.
    pub fn of(slot: SlotId) -> Weak
        ensures { result.slot ≡ slot }
    {
        Weak { slot }
    }

    /// The slot that it names.
    pub fn slot(&self) -> SlotId
        ensures { result ≡ self.now.slot }
    {
        self.slot
    }
}
