//! Weak places and handles, as the domain names them.
ghost use Rattle.std.specs.Prelude.{◌≡◌};
ghost use Rattle.atomic_weak.specs.Places.{named, weak_place};

use protected_loads::{SlotId, Weak, WeakPlace};
use retiring_stores::EventPlace;

/// The place, as the domain names it.
pub(crate) fn event_place(place: WeakPlace) -> EventPlace
    ensures { result ≡ weak_place place }
{
    match place {
        WeakPlace::Cell(cell) => EventPlace::WeakCell(cell),
        WeakPlace::Field(slot) => EventPlace::WeakField(slot),
    }
}

/// The slot that a handle names, if there is one.
pub(crate) fn slot_of(handle: &Option<Weak>) -> Option<SlotId>
    ensures { result ≡ named handle.now }
{
    match handle {
        None => None,
        Some(weak) => Some(weak.slot()),
    }
}
