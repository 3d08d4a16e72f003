//! What a player does, and what that answers.

/// A place: a cell, a field of the object of one of the player's references, or of one that its region has seen. Both
/// are named by their numbers, in the order in which the player got them.
#[derive(Clone, Copy, PartialEq, Eq, Debug, Drop)]
pub enum Spot {
    Cell(u32),
    Field(usize, u32),
    SeenField(usize, u32),
}

/// An act. Where it gives a reference up, that is the player's last one.
#[derive(Clone, Copy, PartialEq, Eq, Debug, Drop)]
pub enum Act {
    Enter,
    Exit,
    /// An object whose payload is this word, 16 times, and which weighs as much.
    Make(u32),
    /// One more reference to the object of a reference, or to what the region has seen.
    Copy(usize),
    Keep(usize),
    Drop,
    /// The payload words of the object of a reference, or of what the region has seen: the word that all of them are.
    Read(usize),
    ReadSeen(usize),
    Look(Spot),
    /// The last reference goes into the place, or null does.
    Store(Spot),
    Clear(Spot),
    /// The same, where the place holds this.
    Replace(Spot, Option<u32>),
    Empty(Spot, Option<u32>),
    Flush,
    /// How many entries and ended objects wait, and how many adds and makes were used.
    Waiting,
    Adds,
    Makes,
}

/// What an act answers.
#[derive(Clone, Copy, PartialEq, Eq, Debug, Drop)]
pub enum Said {
    Done,
    /// The slot of a reference, or of what was seen.
    Slot(u32),
    Number(u64),
    /// The epoch that a flush read last, how many entries it paid, and what was destroyed weighed.
    Work(u64, u64, u64),
    /// The place was null.
    Null,
    /// The place held this word.
    Lost(u64),
    Spent,
    MakesSpent,
    AddsSpent,
    Full,
    /// There is no such reference, nothing of that number was seen, or there is no such place; or the player may not do
    /// it now.
    Never,
    /// A payload has two different words.
    Torn,
    NoMemory,
    /// In a script: whatever it is.
    Whatever,
}
