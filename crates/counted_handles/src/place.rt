//! The places of a domain, as callers with handles name them.
use plain_state::SlotId;

/// A place for a strong reference: a cell by its number, or field 0 or 1 of a slot.
#[derive(Clone, Copy, PartialEq, Eq, Debug, Drop)]
pub enum Place {
    Cell(u32),
    Field(SlotId, u32),
}

/// A place for a weak reference: a weak cell by its number, or the weak field of a slot.
#[derive(Clone, Copy, PartialEq, Eq, Debug, Drop)]
pub enum WeakPlace {
    Cell(u32),
    Field(SlotId),
}
