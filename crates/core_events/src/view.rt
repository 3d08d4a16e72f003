//! What a seat knows, as plain data that stands in contracts.
use crate::act::Act;
use crate::outcome::Outcome;
use crate::shape::{Quota, Shape};
use announce_slots::{Kind, SlotId};
use std::collections::LinkedList;

/// What one announcement word of a seat stands for.
#[derive(Clone, Copy, PartialEq, Eq, Debug, Drop)]
pub enum Note {
    Idle,
    Announced(Kind, SlotId),
    /// Announced, and then found in a place, or alive: the seat is under a snapshot of it.
    Valid(Kind, SlotId),
}

/// What a seat is in the middle of.
#[derive(Clone, Copy, PartialEq, Eq, Debug, Drop)]
pub enum Phase {
    Idle,
    /// It took the strong count to 0.
    Finish(SlotId),
    /// It found the help flag.
    Help(SlotId),
    /// It read a strong word 0.
    Zero(SlotId),
    /// It has read the announcement words that its view lists as seen, and reads the one after them
    /// next.
    Scan,
    /// It has claimed the slot, which has no weak reference of its own yet.
    Bare(SlotId),
    /// It fills the slot that it has claimed.
    Blank(SlotId),
    /// It took the weak word to 0.
    Give(SlotId),
}

/// An event that a seat made, and what it answered.
#[derive(Clone, Copy, PartialEq, Eq, Debug, Drop)]
pub struct Move {
    pub act: Act,
    pub outcome: Outcome,
}

/// What is kept of a seat that has left, by its number.
pub struct LeftSeat {
    pub seat: u32,
    pub trail: LinkedList<Move>,
    pub tickets: LinkedList<u64>,
}

/// What a seat knows. No value of it is made: it stands in contracts alone.
pub struct CoreView {
    pub seat: u32,
    pub shape: Shape,
    pub quota: Quota,
    /// How many makes more who draws each ticket has.
    pub grants: LinkedList<u64>,
    /// How many entries it may have retired and owed together.
    pub room: u32,
    /// Its strong references, an entry for each.
    pub owned: LinkedList<SlotId>,
    /// Its weak references, an entry for each.
    pub weaks: LinkedList<SlotId>,
    /// One for each of its four announcement words.
    pub notes: LinkedList<Note>,
    /// The references that left a place and that nobody may have given up yet.
    pub retired: LinkedList<(Kind, SlotId)>,
    /// Those that it is to give up.
    pub owed: LinkedList<(Kind, SlotId)>,
    /// The slots that it has ended and not yet destroyed.
    pub dying: LinkedList<SlotId>,
    /// Those of them that a whole scan found under no announcement, so that they may be destroyed.
    pub ripe: LinkedList<SlotId>,
    pub phase: Phase,
    /// The announcement words that its scan has read.
    pub seen: LinkedList<u64>,
    pub adds: u64,
    pub makes: u64,
    /// The tickets that it drew.
    pub tickets: LinkedList<u64>,
    /// Whether it has left.
    pub left: bool,
    pub trail: LinkedList<Move>,
    /// The slots that it made live, in order. Seat 0 has also those of the seats that left.
    pub made: LinkedList<SlotId>,
    /// At seat 0, what is kept of the seats that left.
    pub left_seats: LinkedList<LeftSeat>,
}
