//! The places that hold references, and what a seat may be about to do.
use crate::slot::{Kind, SlotId};

/// A place that holds a reference or null.
#[derive(Clone, Copy, PartialEq, Eq, Debug, Drop)]
pub enum EventPlace {
    Cell(u32),
    Field(SlotId, u32),
    WeakCell(u32),
    WeakField(SlotId),
}

/// A step that a seat may be about to make, as the plain state sees it.
#[derive(Clone, Copy, PartialEq, Eq, Debug, Drop)]
pub enum PlainAct {
    Claim(SlotId),
    Fill(SlotId, u32, u64),
    Make(SlotId),
    /// One more owned reference, or none where the zero mark stands.
    Add(SlotId),
    Drop(SlotId),
    WeakGain(SlotId),
    WeakDrop(SlotId),
    Look(EventPlace),
    /// A snapshot by the announcement word of this number, or nothing.
    Check(u32, EventPlace),
    EndSnapshot(Kind, SlotId),
    Replace(EventPlace, Option<SlotId>),
    /// The place, what it is expected to hold, and what it is to hold.
    TryReplace(EventPlace, Option<SlotId>, Option<SlotId>),
    Count(SlotId),
    /// A reader at a count of zero sets the zero mark, or finds that it isn't zero any more.
    Mark(SlotId),
    WeakCount(SlotId),
    See(SlotId, u32),
    Eject(Kind, SlotId),
    End(SlotId),
    /// A field of a dying slot becomes null.
    Clear(EventPlace),
    Destroy(SlotId),
    Give(SlotId),
    /// The seat of this number leaves, and seat 0 takes over its lists.
    Leave(u32),
    /// The order of the seat's deferred entries changes.
    Split,
    /// The seat draws the next ticket.
    Ticket,
    /// A weak snapshot by the announcement word of this number, or nothing where the strong count is 0.
    Alive(u32),
    Still,
}
