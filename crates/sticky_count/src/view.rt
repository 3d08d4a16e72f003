//! What a seat knows, as plain data that exists in proofs alone: no value of these types is ever
//! made.
use std::collections::LinkedList;

/// Where a call of a seat stands.
pub enum Phase {
    /// The seat is in no call.
    Idle,
    /// It took the last count, and is to finish.
    Finish,
    /// Its finish found the help flag, and it is to take the flag.
    Help,
    /// It read 0, and is to set both flags where the word is still 0.
    Zero,
}

/// The kinds of atomic step.
pub enum Act {
    Add,
    Sub,
    Finish,
    Take,
    Load,
    Mark,
}

/// A step of one of the seats, which are numbered from 0 on.
pub struct Event {
    pub seat: u64,
    pub act: Act,
}

/// A step that was made, and the word that it found.
pub struct Move {
    pub act: Act,
    pub found: u64,
}

/// What a seat knows of itself.
pub struct View {
    /// The counts that it holds.
    pub held: u64,
    /// The adds that it has used, those that found the zero flag among them.
    pub adds: u64,
    pub phase: Phase,
    /// How often a step of it has ended the counter.
    pub ended: u64,
    /// The steps that it has made, oldest first.
    pub trail: LinkedList<Move>,
}

/// What the table keeps of a seat.
pub struct Knows {
    pub view: View,
    /// Its number, and how many seats the counter has.
    pub seat: u64,
    pub seats: u64,
    /// The events of all seats up to its own last step, newest first.
    pub past: LinkedList<Event>,
    /// How many seats may still be split off it.
    pub to_open: u64,
}
