//! An ordered map of versions over a strong cell of a domain.
ghost use Rattle.std.specs.Prelude.{◌≡◌};

/// An ordered map of versions, whose root stands in a strong cell of a domain.
#[derive(Clone, Copy, PartialEq, Eq, Debug, Drop)]
pub struct VersionMap {
    /// The cell.
    pub cell: u32,
}

impl VersionMap {
    /// The map whose root stands in this cell. It takes no step.
    pub fn over(cell: u32) -> VersionMap
        ensures { result.cell ≡ cell }
    {
        VersionMap { cell }
    }
}

/// The root cell has changed under a call, which didn't change it: it showed these two words, which differ, to two
/// events of the call. A word is 0 for null, and one more than its number for a slot.
#[derive(Clone, Copy, PartialEq, Eq, Debug, Drop)]
pub struct Moved {
    /// What it showed first.
    pub seen: u64,
    /// What it showed later.
    pub now: u64,
}
