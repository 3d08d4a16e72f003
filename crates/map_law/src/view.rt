//! What a seat knows of the map's nodes, and what it did. No value of these types is made: contracts alone see them.
use map_trees::Entry;
use plain_protocol::SlotId;
use std::collections::LinkedList;

/// A slot in one of its lives.
#[derive(Clone, Copy, Drop)]
pub struct Note {
    /// The slot.
    pub slot: SlotId,
    /// Its life.
    pub life: u64,
}

/// A node: a slot in one of its lives, with the payload.
#[derive(Drop)]
pub struct Kid {
    /// The slot.
    pub slot: SlotId,
    /// Its life.
    pub life: u64,
    /// The key, the value and the height are in it.
    pub payload: LinkedList<u64>,
}

/// A node that the seat made and that stands in no tree yet: it alone may change its fields.
#[derive(Drop)]
pub struct Raw {
    /// The slot.
    pub slot: SlotId,
    /// Its life.
    pub life: u64,
    /// The key, the value and the height are in it.
    pub payload: LinkedList<u64>,
    /// What field 0 holds.
    pub first: Option<Kid>,
    /// What field 1 holds.
    pub second: Option<Kid>,
}

/// What a field holds of a node that nobody changes any more.
#[derive(Drop)]
pub struct Led {
    /// The node's slot.
    pub slot: SlotId,
    /// Its life.
    pub life: u64,
    /// The number of the field, 0 or 1.
    pub side: u64,
    /// What it holds.
    pub kid: Option<Kid>,
}

/// What a look at such a field showed, where the seat didn't have what was found.
#[derive(Clone, Copy, Drop)]
pub struct Shown {
    /// The node's slot.
    pub slot: SlotId,
    /// Its life.
    pub life: u64,
    /// The number of the field, 0 or 1.
    pub side: u64,
    /// The slot that it showed.
    pub next: Option<SlotId>,
}

/// What a seat knows and did.
#[derive(Drop)]
pub struct View {
    /// The seat's number.
    pub number: u64,
    /// It hasn't left.
    pub here: bool,
    /// The nodes that it made and that stand in no tree yet, the last one first.
    pub raw: LinkedList<Raw>,
    /// Nodes that nobody changes any more: they stood in a tree, or were read.
    pub solid: LinkedList<Note>,
    /// What fields of such nodes hold.
    pub led: LinkedList<Led>,
    /// What looks at such fields showed.
    pub shown: LinkedList<Shown>,
    /// Its deciding exchanges in order, and in seat 0's view those of the seats that have left.
    pub entries: LinkedList<Entry>,
    /// Seat 0 has cleared the root cell, in its own view alone.
    pub cleared: bool,
}
