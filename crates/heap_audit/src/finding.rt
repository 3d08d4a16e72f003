//! What an audit finds.
use deleter::SlotId;

/// What an audit finds.
#[derive(Debug, Drop)]
pub struct Audit {
    /// How many slots are Live.
    pub live: u64,
    /// How many entries are deferred.
    pub deferred: u64,
    /// How many Live slots are unreached.
    pub cyclic: u64,
    /// What the Live slots weigh together.
    pub bytes: u64,
    /// A cycle of unreached slots, in the direction of the fields. Empty where there is none.
    pub walk: Vec<SlotId>,
}
