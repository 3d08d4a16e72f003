//! What a seat of a domain knows, as data that stands in contracts alone.
use core_law::{CoreView, Event, EventPlace};
use std::collections::LinkedList;

/// What stays of an object while a seat has its slot.
pub struct Known {
    /// How many makes there were of its slot.
    pub life: u64,
    pub payload: LinkedList<u64>,
}

/// The words of a domain, and what each of its seats has.
pub struct Whole {
    pub words: LinkedList<u64>,
    pub views: LinkedList<CoreView>,
}

/// What a seat of a domain knows. No value of it is made.
pub struct SeatView<W> {
    /// Its half of the core.
    pub core: CoreView,
    /// For each slot what stays of its object. It holds of the slots that the seat has.
    pub objects: LinkedList<Known>,
    /// The fields of slots in its dying list that its own swaps left null.
    pub cleared: LinkedList<EventPlace>,
    /// The whole core, where the seat is seat 0 and every other one has left.
    pub whole: Option<Whole>,
    /// At seat 0: how many seats there are so far.
    pub opened: u32,
    /// At seat 0: the adds and the makes that the seats which left had used.
    pub left_adds: u64,
    pub left_makes: u64,
    /// What had happened once it had made its last step, by all seats, the latest event first.
    pub past: LinkedList<Event>,
    /// It has left, and nothing else is told of it.
    pub gone: bool,
    /// What the client of the domain keeps with the seat.
    pub client: W,
}
