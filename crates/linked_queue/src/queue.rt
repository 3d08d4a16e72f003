//! A queue as a value, and why a push or a pop is refused.
use slot_store::{MakeError, Strong};

/// A linked queue of a domain, by its two strong cells. It gives no right by itself: a call asks that the domain's law
/// is that of a linked queue over these cells.
#[derive(Clone, Copy, PartialEq, Eq, Debug, Drop)]
pub struct LinkedQueue {
    /// The cell that holds the dummy, the node before the first item.
    pub head: u32,
    /// The cell that holds the last node, or the one before it.
    pub tail: u32,
}

/// Why a try to pop answered nothing.
#[derive(Clone, Copy, PartialEq, Eq, Debug, Drop)]
pub enum PopError {
    /// Another seat has been quicker: a place of the queue held the word `seen`, and then another one, `now`. A word is
    /// 0 for null, else the slot's number and one.
    Again { seen: u64, now: u64 },
    /// The seat has no add left of its quota.
    Spent,
}

/// An item that wasn't pushed since no node could be made, or no reference counted. It is handed back.
#[derive(Debug, Drop)]
pub struct PushRefused {
    pub why: MakeError,
    pub back: Strong,
}

/// Why a try to push pushed nothing. The item is handed back.
#[derive(Debug, Drop)]
pub enum PushError {
    /// Another seat has been quicker: a place of the queue held the word `seen`, and then another one, `now`. A word is
    /// 0 for null, else the slot's number and one.
    Again { seen: u64, now: u64, back: Strong },
    Refused(PushRefused),
}
