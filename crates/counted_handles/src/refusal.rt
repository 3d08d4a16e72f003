//! What calls on handles answer where they give no reference.

/// The seat has no add left of its quota.
#[derive(Clone, Copy, PartialEq, Eq, Debug, Drop)]
pub struct Spent;

/// Why a try to load gave no reference.
#[derive(Clone, Copy, PartialEq, Eq, Debug, Drop)]
pub enum LoadError {
    /// The place changed while the call looked: it held the word `seen`, and then another one, `now`. A word is 0 for
    /// null, else the slot's number and one.
    Moved { seen: u64, now: u64 },
    /// The seat has no add left of its quota.
    Spent,
}
