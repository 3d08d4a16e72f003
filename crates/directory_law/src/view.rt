//! What a seat knows of a directory, and what it did. No value of these types is made: contracts alone see them.
use plain_protocol::SlotId;
use std::collections::LinkedList;

/// What the numbers of a directory's interns are given to.
#[derive(Clone, Copy, PartialEq, Eq, Debug, Drop)]
pub enum GivenTo {
    /// To seats: each begins with the number that stands at its own.
    Seats,
    /// To tickets: the seat that draws one has so many more.
    Tickets,
}

/// A slot in one of its lives.
#[derive(Clone, Copy, Drop)]
pub struct Note {
    pub slot: SlotId,
    pub life: u64,
}

/// A slot in one of its lives, and the text that is read from it along field 1: the payload of each slot, in order.
#[derive(Drop)]
pub struct Rope {
    pub slot: SlotId,
    pub life: u64,
    pub text: LinkedList<LinkedList<u64>>,
}

/// A head that was seen in a cell of the range, with its payload.
#[derive(Drop)]
pub struct Seen {
    /// The number of the cell in the range, from 0 on.
    pub cell: u64,
    pub slot: SlotId,
    pub life: u64,
    pub head: LinkedList<u64>,
}

/// How far the text of a head was read.
#[derive(Drop)]
pub struct Ran {
    pub slot: SlotId,
    pub life: u64,
    /// The payloads that were read so far, that of the head first.
    pub before: LinkedList<LinkedList<u64>>,
    /// The slot that the last of them is of.
    pub now: SlotId,
    pub now_life: u64,
}

/// What field 1 of a slot was seen to hold.
#[derive(Clone, Copy, Drop)]
pub struct Led {
    pub slot: SlotId,
    pub life: u64,
    pub next: Option<SlotId>,
}

/// What a seat knows and did.
#[derive(Drop)]
pub struct View {
    /// The interns that it may make in all.
    pub quota: u64,
    /// The interns that it made.
    pub used: u64,
    /// The slots that it made and that stand nowhere, in no cell and in no field 1, the last one first.
    pub noted: LinkedList<Rope>,
    /// The heads that it put into cells.
    pub kept: LinkedList<Rope>,
    /// The heads that it saw in cells.
    pub seen: LinkedList<Seen>,
    /// The lives of which it saw the zero mark.
    pub ended: LinkedList<Note>,
    /// The texts that it read, or began to read, the last one first.
    pub ran: LinkedList<Ran>,
    /// What it saw in fields 1.
    pub led: LinkedList<Led>,
}
