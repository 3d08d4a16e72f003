//! What became of each id in a publication, and why one stopped.
use part_calls::MakeError;

/// What became of the observer of an id.
#[derive(Clone, Copy, PartialEq, Eq, Debug, Drop)]
pub enum Fate {
    /// The cell of the id was null.
    Absent,
    /// It referred to an observer that had ended: there was no strong reference to it.
    Ended,
    /// It referred to one that lived, and a delivery to it was pushed.
    Sent,
}

/// Why a publication stopped: the cause, and the id for which it came. The ids below it have their fates.
#[derive(Clone, Copy, PartialEq, Eq, Debug, Drop)]
pub struct PublishRefused {
    pub why: MakeError,
    pub at: u32,
}
