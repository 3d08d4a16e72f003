//! What a seat knows of observers and deliveries. No value of these types is made: contracts alone see them.
use plain_protocol::SlotId;
use std::collections::LinkedList;

/// A delivery that the seat made and that has no observer yet. Its life is 0 where there is none.
#[derive(Clone, Copy, Drop)]
pub struct Made {
    pub slot: SlotId,
    pub life: u64,
}

/// An observer that the seat put into the cell of its id.
#[derive(Clone, Copy, Drop)]
pub struct Subscribed {
    pub id: u64,
    pub slot: SlotId,
    pub life: u64,
}

/// A delivery, and the observer that it is to. Both are slots in one of their lives.
#[derive(Clone, Copy, Drop)]
pub struct Address {
    pub slot: SlotId,
    pub life: u64,
    pub event: u64,
    pub observer: SlotId,
    pub observer_life: u64,
    pub id: u64,
}

/// What a seat knows and did.
#[derive(Drop)]
pub struct View {
    pub number: u64,
    /// It hasn't left.
    pub here: bool,
    pub made: Made,
    /// The observers that it put into cells, the last one first.
    pub subscribed: LinkedList<Subscribed>,
    /// The deliveries that it addressed, in order.
    pub addressed: LinkedList<Address>,
    /// What it found in field 0 of deliveries, in order.
    pub read: LinkedList<Address>,
}
