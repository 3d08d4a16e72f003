//! What a seat of a domain under epochs knows, as data that stands in contracts alone.
use domain_rule::Known;
use epoch_core::{EpochEvent, EpochView, EventPlace};
use std::collections::LinkedList;

/// The words of a domain under epochs, what each of its seats has, and the epoch at which the region of each was
/// opened.
pub struct EpochWhole {
    pub words: LinkedList<u64>,
    pub views: LinkedList<EpochView>,
    pub opened: LinkedList<u64>,
}

/// What a seat of a domain under epochs knows. No value of it is made.
pub struct EpochSeatView<W> {
    /// Its half of the core.
    pub core: EpochView,
    /// For each slot what stays of its object. It holds of the slots that the seat has.
    pub objects: LinkedList<Known>,
    /// The fields of slots in its dying list that it found null, or left so.
    pub cleared: LinkedList<EventPlace>,
    /// The whole core, where the seat is seat 0 and every other one has left.
    pub whole: Option<EpochWhole>,
    /// At seat 0: how many seats there are so far.
    pub opened: u32,
    /// At seat 0: the adds and the makes that the seats which left had used.
    pub left_adds: u64,
    pub left_makes: u64,
    /// What had happened once it had made its last step, by all seats, the latest event first.
    pub past: LinkedList<EpochEvent>,
    /// It has left, and nothing else is told of it.
    pub gone: bool,
    /// What the client of the domain keeps with the seat.
    pub client: W,
}
