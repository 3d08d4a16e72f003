//! What a publish is asked for, and how it is refused.
use map_law::Change;

/// A change of one key, and what the key has before it.
#[derive(Clone, Copy, Drop)]
pub struct Update {
    /// The key.
    pub key: u64,
    /// What becomes of it.
    pub change: Change,
    /// Its value in the version that is changed, if it has one.
    pub answer: Option<u64>,
}

/// The root cell holds another root than that of the version that was read. A word is 0 for null, and one more than its
/// number for a slot.
#[derive(Clone, Copy, PartialEq, Eq, Debug, Drop)]
pub struct Lost {
    /// The word of the root that was read.
    pub seen: u64,
    /// The word that the cell holds, which is another one.
    pub now: u64,
}
