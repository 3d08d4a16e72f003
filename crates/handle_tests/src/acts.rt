//! What a player does, and what that answers.

/// A strong place: a cell, or a field of the object of one of the player's strong references, by the reference's
/// number.
#[derive(Clone, Copy, PartialEq, Eq, Debug, Drop)]
pub(crate) enum Spot {
    Cell(u32),
    Field(usize, u32),
}

/// A weak place: a weak cell, or the weak field of the object of one of the player's strong references.
#[derive(Clone, Copy, PartialEq, Eq, Debug, Drop)]
pub(crate) enum WeakSpot {
    Cell(u32),
    Field(usize),
}

/// An act. A number names one of the player's strong references, or of its weak ones, in the order in which it got
/// them. Where an act gives a reference up, that is the last one.
#[derive(Clone, Copy, PartialEq, Eq, Debug, Drop)]
pub(crate) enum Act {
    /// An object of this weight.
    Make(u32),
    /// Payload word 0 of the object of a strong reference.
    Read(usize),
    Drop,
    Copy(usize),
    Weaken(usize),
    CopyWeak(usize),
    DropWeak,
    Upgrade(usize),
    /// The strong count, by a strong reference, or by a weak one; and the weak count, by a weak one.
    Count(usize),
    CountBy(usize),
    CountWeak(usize),
    /// A load in one try, or in as many as it takes.
    TryLoad(Spot),
    Load(Spot),
    Store(Spot),
    Clear(Spot),
    /// The last strong reference goes into the place, where that holds this.
    Replace(Spot, Option<u32>),
    TryLoadWeak(WeakSpot),
    LoadWeak(WeakSpot),
    StoreWeak(WeakSpot),
    ClearWeak(WeakSpot),
    ReplaceWeak(WeakSpot, Option<u32>),
    /// A snapshot that ends at once, in one try or in as many as it takes.
    Look(Spot),
    LookOn(Spot),
    /// The same, but where it is counted its reference joins the strong ones.
    Take(Spot),
    /// A reference of the snapshot that the player is under.
    Keep,
    /// A weak snapshot that ends at once.
    Watch(WeakSpot),
    /// Under a weak snapshot the last strong reference is dropped, and the object waits until the snapshot ends.
    Outlive(WeakSpot),
    Ticket,
    Collect,
    Reap,
    Settle,
    /// An audit of a domain with four slots, of which this one has the least rank.
    Audit(u32),
    /// How many adds were used, how many entries are deferred, and which slot is dying.
    Adds,
    Deferred,
    Dying,
}

/// What an act answers.
#[derive(Clone, Copy, PartialEq, Eq, Debug, Drop)]
pub(crate) enum Said {
    Done,
    /// The slot of a reference, or of a snapshot that isn't counted, or of what is dying.
    Slot(u32),
    /// The slot of a counted snapshot.
    Counted(u32),
    Number(u64),
    /// How many objects live, entries are deferred, objects are in a cycle, and what all weigh; and where a walk round
    /// a cycle begins, and how long it is, both 0 where there is none.
    Found((u64, u64, u64, u64), (u32, usize)),
    /// The place was null.
    Null,
    /// Nothing is there of what was asked for.
    Nothing,
    /// The object had ended.
    Ended,
    /// The place held this word.
    Lost(u64),
    Moved,
    Spent,
    MakesSpent,
    AddsSpent,
    Full,
    /// There is no such reference, or no such place; or the player may not do it now.
    Never,
    /// There is no memory for the lists.
    NoMemory,
    /// In a script: whatever it is.
    Whatever,
}
