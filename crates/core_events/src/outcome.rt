//! What an event answers.
use announce_slots::SlotId;

/// What an event answers.
#[derive(Clone, Copy, PartialEq, Eq, Debug, Drop)]
pub enum Outcome {
    Plain,
    /// The add counted.
    Up,
    /// The add found the zero flag.
    Dead,
    /// References are left.
    Left,
    /// It was the last strong reference.
    Zeroed,
    /// It was the last weak reference.
    Last,
    /// This seat ended the object.
    Ended,
    /// The help flag stands.
    Help,
    Lost,
    /// The help flag was gone.
    NoHelp,
    /// The strong word was 0.
    Again,
    Number(u64),
    Found(Option<SlotId>),
    /// The place holds what was announced.
    Valid,
    Moved(Option<SlotId>),
    Word(u64),
    /// The last word of a scan, and how many entries stay and go.
    Split(u64, u32, u32),
    Done,
    LostTo(Option<SlotId>),
    Claimed,
    /// The slot's bit was clear in this word.
    Taken(u64),
    /// The object that was announced has strong references.
    Alive,
}
