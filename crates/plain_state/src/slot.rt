//! What a slot is: its number, its stage, and what the plain state says of it.

/// A slot of the heap, by its number.
#[derive(Clone, Copy, PartialEq, Eq, Debug, Drop)]
pub struct SlotId(pub u32);

/// What a reference, a snapshot or an announcement keeps from happening.
#[derive(Clone, Copy, PartialEq, Eq, Debug, Drop)]
pub enum Kind {
    /// The end of the object.
    Strong,
    /// That the slot is given again.
    Weak,
    /// The destruction of an object that may have ended. Only snapshots are of this kind: no place holds such a
    /// reference, and no decrement of one is deferred.
    Disposal,
}

/// How far a slot is in its life.
#[derive(Clone, Copy, PartialEq, Eq, Debug, Drop)]
pub enum Stage {
    /// It may be claimed.
    Free,
    /// A seat has claimed it, and fills it.
    Blank,
    /// It holds an object.
    Live,
    /// Its object has ended, and waits in a dying list to be destroyed.
    Ended,
    /// Its object is destroyed. Weak references keep the slot from being given again.
    Husk,
}

/// What the plain state says of one slot.
#[derive(Clone, Copy, PartialEq, Eq, Debug, Drop)]
pub struct PlainSlot {
    pub stage: Stage,
    /// The zero mark: the object is to end, and no upgrade succeeds any more.
    pub marked: bool,
    /// How often the slot was made so far.
    pub life: u64,
    pub payload: [u64; 16],
    pub first: Option<SlotId>,
    pub second: Option<SlotId>,
    pub weak_field: Option<SlotId>,
}
