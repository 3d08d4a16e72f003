//! What a seat knows, as plain data that stands in contracts.
use crate::act::{Dated, EpochAct};
use crate::outcome::EpochOutcome;
use crate::shape::EpochShape;
use core_law::{Quota, SlotId};
use std::collections::LinkedList;

/// A scan of the region words, under way.
#[derive(Clone, Copy, PartialEq, Eq, Debug, Drop)]
pub struct Sweep {
    /// The epoch that was read before it.
    pub epoch: u64,
    /// How many region words it has read.
    pub passed: u32,
    /// Whether each of them was 0 or one more than the epoch.
    pub fit: bool,
}

/// What a seat is in the middle of. Whether its region is open is apart from this.
#[derive(Clone, Copy, PartialEq, Eq, Debug, Drop)]
pub enum EpochPhase {
    Idle,
    /// It has read this epoch to open a region, and stored nothing yet.
    Entering(u64),
    /// An exchange took the slot out of a place, and the entry has no date yet.
    Undated(SlotId),
    /// It fills the slot that it has claimed.
    Blank(SlotId),
    Scan(Sweep),
}

/// An event that a seat made, and what it answered.
#[derive(Clone, Copy, PartialEq, Eq, Debug, Drop)]
pub struct EpochMove {
    pub act: EpochAct,
    pub outcome: EpochOutcome,
}

/// What is kept of a seat that has left, by its number.
pub struct LeftEpochSeat {
    pub seat: u32,
    pub trail: LinkedList<EpochMove>,
}

/// What a seat knows. No value of it is made: it stands in contracts alone.
pub struct EpochView {
    pub seat: u32,
    pub shape: EpochShape,
    pub quota: Quota,
    /// Its references, an entry for each.
    pub owned: LinkedList<SlotId>,
    /// The references that left a place and that it has yet to give up.
    pub pending: LinkedList<Dated>,
    /// The slots whose objects it has ended and not yet destroyed.
    pub dying: LinkedList<SlotId>,
    pub phase: EpochPhase,
    /// What its region word holds: 0 outside a region.
    pub number: u64,
    /// The slots that its region has seen, an entry for each look.
    pub seen: LinkedList<SlotId>,
    /// The epoch that its last flush knew in the end.
    pub known: u64,
    pub adds: u64,
    pub makes: u64,
    /// Whether it has left.
    pub left: bool,
    pub trail: LinkedList<EpochMove>,
    /// The slots that it made live, in order. Seat 0 has also those of the seats that left.
    pub made: LinkedList<SlotId>,
    /// At seat 0, what is kept of the seats that left.
    pub left_seats: LinkedList<LeftEpochSeat>,
}
