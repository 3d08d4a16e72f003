//! Handles that may be null.
ghost use Rattle.std.specs.Prelude.{◌≡◌};
ghost use Rattle.atomic_shared.specs.Places.{named};

use slot_store::{SlotId, Strong};

/// The slot that a handle names, if there is one.
pub(crate) fn slot_of(handle: &Option<Strong>) -> Option<SlotId>
    ensures { result ≡ named handle.now }
{
    match handle {
        None => None,
        Some(strong) => Some(strong.slot()),
    }
}
