//! What a seat can do in one atomic action.
use core_law::{EventPlace, SlotId};

/// An entry that is pending: a reference that left a place, and the epoch that was read after it had left.
#[derive(Clone, Copy, PartialEq, Eq, Debug, Drop)]
pub struct Dated {
    pub slot: SlotId,
    pub date: u64,
}

/// One atomic action of a seat.
#[derive(Clone, Copy, PartialEq, Eq, Debug, Drop)]
pub enum EpochAct {
    /// Takes a free slot: its count word goes from 2^63 to 0.
    Claim(SlotId),
    /// One payload word of the claimed slot.
    Fill(u32, u64),
    /// Makes the claimed slot live, with one reference.
    Start,
    /// Reads a payload word.
    See(SlotId, u32),
    /// Counts one more reference to a slot that the seat holds.
    Add(SlotId),
    /// Gives up an owned reference. The object has ended where it was the last one.
    Drop(SlotId),
    /// Gives up the reference of a pending entry. The object has ended where it was the last one.
    Pay(Dated),
    /// Gives back a slot whose object has ended and whose fields are null.
    Free(SlotId),
    /// Reads a place in a region.
    Look(EventPlace),
    Swap(EventPlace, Option<SlotId>),
    /// The place, what it is expected to hold, and what it is to hold.
    Cas(EventPlace, Option<SlotId>, Option<SlotId>),
    /// A field of a slot whose object has ended becomes null.
    Clear(SlotId, u32),
    /// Reads the epoch, which dates what an exchange has just taken out of a place.
    Date,
    /// Reads the epoch, to open a region.
    Enter,
    /// Stores the epoch that was read, and one, in the seat's region word: the region is open.
    Open,
    /// Stores 0 there: the region is closed.
    Exit,
    /// Reads the epoch, to begin a flush.
    Flush,
    /// Reads the next region word.
    Scan,
    /// After a scan that found every region fit: the next epoch, unless it has changed meanwhile.
    Advance,
    /// Seat 0 takes over what the seat of this number has.
    Leave(u32),
}

/// An act, and the seat that makes it.
#[derive(Clone, Copy, PartialEq, Eq, Debug, Drop)]
pub struct EpochEvent {
    pub seat: u32,
    pub act: EpochAct,
}
