//! Strong places and handles, as the domain names them.
ghost use Rattle.std.specs.Prelude.{◌≡◌};
ghost use Rattle.atomic_shared.specs.Places.{named, strong_place};

use protected_loads::{Place, SlotId};
use retiring_stores::{EventPlace, Strong};

/// The place, as the domain names it.
pub fn event_place(place: Place) -> EventPlace
    ensures { result ≡ strong_place place }
{
    match place {
        Place::Cell(cell) => EventPlace::Cell(cell),
        Place::Field(slot, field) => EventPlace::Field(slot, field),
    }
}

/// The slot that a handle names, if there is one.
pub(crate) fn slot_of(handle: &Option<Strong>) -> Option<SlotId>
    ensures { result ≡ named handle.now }
{
    match handle {
        None => None,
        Some(strong) => Some(strong.slot()),
    }
}
