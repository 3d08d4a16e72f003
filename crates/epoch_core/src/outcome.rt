//! What an event answers.
use core_law::SlotId;

/// What an event answers.
#[derive(Clone, Copy, PartialEq, Eq, Debug, Drop)]
pub enum EpochOutcome {
    Plain,
    Claimed,
    /// The slot's count word was this one, which isn't that of a free slot.
    Taken(u64),
    /// References are left.
    Left,
    /// It was the last reference: the object has ended, and this seat is to destroy it.
    Ended,
    Word(u64),
    Found(Option<SlotId>),
    Done,
    LostTo(Option<SlotId>),
    /// The epoch, as it was found.
    Epoch(u64),
}
