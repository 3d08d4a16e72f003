//! The places of a plain heap, as its callers name them.
ghost use Rattle.std.specs.Prelude.{◌≡◌};
ghost use Rattle.plain_store.specs.Calls.{strong_place, weak_place};

use plain_state::{EventPlace, SlotId};

/// A place for a strong reference: a cell by its number, or field 0 or 1 of a slot.
#[derive(Clone, Copy, PartialEq, Eq, Debug, Drop)]
pub enum PlainPlace {
    Cell(u32),
    Field(SlotId, u32),
}

/// A place for a weak reference: a weak cell by its number, or the weak field of a slot.
#[derive(Clone, Copy, PartialEq, Eq, Debug, Drop)]
pub enum PlainWeakPlace {
    Cell(u32),
    Field(SlotId),
}

impl PlainPlace {
    /// The place, as plain steps name it.
    pub fn event(self) -> EventPlace
        ensures { result ≡ strong_place self }
    {
        match self {
            PlainPlace::Cell(cell) => EventPlace::Cell(cell),
            PlainPlace::Field(slot, field) => EventPlace::Field(slot, field),
        }
    }
}

impl PlainWeakPlace {
    /// The place, as plain steps name it.
    pub fn event(self) -> EventPlace
        ensures { result ≡ weak_place self }
    {
        match self {
            PlainWeakPlace::Cell(cell) => EventPlace::WeakCell(cell),
            PlainWeakPlace::Field(slot) => EventPlace::WeakField(slot),
        }
    }
}
