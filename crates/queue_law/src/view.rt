//! What a seat knows of a queue, and what it did. No value of these types is made: contracts alone see them. A slot is
//! told as the word of a place that holds it: 0 for none, else its number and one.
use std::collections::LinkedList;

/// How the nodes of a queue are linked.
#[derive(Clone, Copy, PartialEq, Eq, Debug, Drop)]
pub enum Form {
    /// Field 0 of the last node decides a push. The tail cell follows.
    Linked,
    /// The tail cell decides a push. Field 0 of the node before follows, and a weak field leads back to that node.
    Double,
}

/// An object: a slot in one of its lives.
#[derive(Drop)]
pub struct Item {
    pub slot: u64,
    pub life: u64,
    pub payload: LinkedList<u64>,
}

/// An item that was pushed or popped, and by which seat.
#[derive(Drop)]
pub struct Taken {
    pub item: Item,
    pub taker: u64,
}

/// What a seat knows of a node that it saw.
#[derive(Drop)]
pub struct Eyes {
    pub node: u64,
    pub life: u64,
    /// The head cell held it.
    pub was_head: bool,
    /// The tail cell held it.
    pub was_tail: bool,
    /// The node after it.
    pub following: u64,
    /// The item of the node after it, for as long as that waits.
    pub found: u64,
    /// The node before it.
    pub before: u64,
    /// The node before it leads on to it, or is gone.
    pub helped: bool,
    /// The tail cell has gone past it.
    pub passed: bool,
}

/// A node of the seat's own that isn't linked yet, with the item and the weak reference that were put into it.
#[derive(Drop)]
pub struct Load {
    pub node: u64,
    pub life: u64,
    pub item: u64,
    pub item_life: u64,
    pub item_payload: LinkedList<u64>,
    pub back: u64,
}

/// A push in flight: its node, and the one before it, whose field 0 may not lead on yet.
#[derive(Drop)]
pub struct Flight {
    pub prev: u64,
    pub prev_life: u64,
    pub node: u64,
    pub life: u64,
}

/// How far seat 0 is.
#[derive(Drop)]
pub struct Stand {
    /// 0 where nothing is laid, 1 where the dummy stands in the tail cell alone, 2 where the queue is laid, 3 where the
    /// head cell was cleared, 4 where both were.
    pub laid: u64,
    /// What was left waiting when the head cell was cleared.
    pub left: LinkedList<Item>,
}

/// What a seat knows and did.
#[derive(Drop)]
pub struct View {
    pub number: u64,
    /// It hasn't left.
    pub here: bool,
    pub form: Form,
    pub load: Load,
    pub eyes: Eyes,
    pub flight: Flight,
    /// The flights of seats that left.
    pub flown: LinkedList<Flight>,
    /// A node that the seat made the dummy.
    pub dummy: u64,
    pub dummy_life: u64,
    /// The queue is laid.
    pub attached: bool,
    pub stand: Stand,
    pub pushed: LinkedList<Taken>,
    pub popped: LinkedList<Taken>,
}
