//! Changes of a map, and the entries that tell them. No value of these types needs to be made: contracts see them.

/// A change of what one key has.
#[derive(Clone, Copy, Drop)]
pub enum Change {
    /// The key has this value.
    Put(u64),
    /// So much is added to its number, which begins with 0 and stops at 2^64 - 1.
    Bump(u64),
    /// The key is absent.
    Take,
}

/// A deciding exchange: whose it was, the key, its change, and what the key had before.
#[derive(Clone, Copy, Drop)]
pub struct Entry {
    /// The seat whose exchange it was.
    pub seat: u64,
    /// The key that it changed.
    pub key: u64,
    /// The change.
    pub change: Change,
    /// The key's value before it.
    pub answer: Option<u64>,
}
