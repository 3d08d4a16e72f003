//! What a seat can do in one atomic action.
use announce_slots::{EventPlace, Kind, SlotId};

/// One atomic action of a seat.
#[derive(Clone, Copy, PartialEq, Eq, Debug, Drop)]
pub enum Act {
    /// Counts one more strong reference, unless the object has ended.
    Add(SlotId),
    /// Gives up an owned strong reference.
    Drop(SlotId),
    /// Gives up the reference of the first entry that is owed.
    Pay,
    /// After the count came to 0: ends the object, unless somebody was quicker.
    Finish,
    /// Takes the help flag, and with it the object's end.
    Take,
    /// Reads the strong count.
    Count(SlotId),
    /// After a strong word 0 was read: sets both flags.
    Mark,
    /// Writes an announcement word, by its number among the seat's four.
    Announce(u32, Kind, SlotId),
    Release(u32),
    Look(EventPlace),
    /// Whether a place still holds what the announcement word names.
    Check(u32, EventPlace),
    /// Whether the object that the announcement word keeps from being destroyed has strong references.
    Alive(u32),
    /// Reads the next announcement word. The last one splits the retired entries.
    Scan,
    Swap(EventPlace, Option<SlotId>),
    /// The place, what it is expected to hold, and what it is to hold.
    Cas(EventPlace, Option<SlotId>, Option<SlotId>),
    /// Takes the slot's bit of the free ones.
    Claim(SlotId),
    /// Gives the claimed slot its own weak reference.
    Arm,
    /// One payload word of the claimed slot.
    Fill(u32, u64),
    /// Makes the claimed slot live, with one strong reference.
    Start,
    /// Reads a payload word.
    See(SlotId, u32),
    /// Sets the bit of a slot that nothing names any more.
    Free,
    /// Draws the next ticket.
    Ticket,
    Wadd(SlotId),
    Wdrop(SlotId),
    /// Gives up an ended slot's own weak reference.
    Destroy(SlotId),
    Wcount(SlotId),
    /// Seat 0 takes over what the seat of this number has.
    Leave(u32),
}

/// An act, and the seat that makes it.
#[derive(Clone, Copy, PartialEq, Eq, Debug, Drop)]
pub struct Event {
    pub seat: u32,
    pub act: Act,
}
